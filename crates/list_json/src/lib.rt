//! Writes the sets of a script's last generation as JSON that nft loads: `pipapo list SCRIPT --json | nft -j -f -`.
//!
//! Say that table `ip filter` has a set `s` of addresses and ports, with the elements 10.0.0.0/24 . 80 and 1.2.3.4 . 1-1000, and
//! that the second has 1,800,000 ms left. It is one line, here with breaks:
//!
//!     {"nftables":[
//!       {"metainfo":{"json_schema_version":1}},
//!       {"table":{"family":"ip","name":"filter"}},
//!       {"set":{"elem":[{"concat":[{"prefix":{"addr":"10.0.0.0","len":24}},80]},
//!                       {"elem":{"expires":1800,"timeout":1800,"val":{"concat":["1.2.3.4",{"range":[1,1000]}]}}}],
//!               "family":"ip","flags":["interval","timeout"],"name":"s","table":"filter","type":["ipv4_addr","inet_service"]}}]}
//!
//! A table comes once, and its sets follow it. The members of an object are in the order of their keys. Times are in whole
//! seconds, rounded down, so no element lives longer in the kernel than in the script. An element with less than a second left
//! is left out, since nft reads 0 as no time.
//!
//! [`listing_json`] runs the script to its end. The moment is the script's last, as of a listing. The refused changes are no part
//! of the text: the output has them as data.
//!
//! **Definitions:** `specs/JsonValues.antt` has values and intervals, `JsonSets.antt` elements, sets and tables, and
//! `JsonListing.antt` the line. **Theory:** docs/formats.md, "`list`", and docs/kernel.md, "Moving scripts between nft and this
//! program". **Proofs:** docs/proofs.md, "Listings as JSON (`list_json`)".
#![tactic(auto)]

mod build;
mod elements;
mod report;
mod sets;
mod tables;
mod values;

pub use report::listing_json;
