//! The lookup table of one field: which of the field's rules hold a value.
//!
//! Each rule of a field is a block, an aligned run of values such as an address prefix. Say that an
//! address field has three rules:
//!
//! ```text
//! rule 0   10.0.0.5         of element 0
//! rule 1   192.168.1.0/24   of element 1, which has the range 192.168.1.0-192.168.2.1
//! rule 2   192.168.2.0/31   of element 1
//! ```
//!
//! The table cuts an address into four groups of eight bits. Each group has 256 buckets, one per
//! value. Bit r of a bucket says whether rule r's block agrees with that value. These are some
//! buckets, with rule 0 at the right:
//!
//! ```text
//! group 0:  bucket 10   001    bucket 192   110
//! group 1:  bucket 0    001    bucket 168   110
//! group 2:  bucket 0    001    bucket 1     010    bucket 2   100
//! group 3:  bucket 5    011    bucket 0     110
//! ```
//!
//! A lookup of 192.168.1.5 ANDs one bucket per group: `111 & 110 & 110 & 010 & 011 = 010`. So rule
//! 1 alone holds the address (`FieldTable::match_into`).
//!
//! `match_word` does the same for a word of 64 rules. It has a function for each size that a field
//! has, in which the places of the groups in a value are constants.
//!
//! A table takes groups of eight bits if it then has at most 2 MiB, and else groups of four
//! (`width_for`).
//!
//! The buckets are in pages of 512 rules, which copies share. Rule 600 is bit 24 of word 1 in each
//! line of page 1. A table with more than 64 rules may have a summary (`word_summary`). It names
//! the words of 64 rules that a lookup must look at: no rule of another word holds the value.
//!
//! **Definitions:** `specs/Table.antt` and `Rules.antt` say which blocks a table represents.
//! `Lines.antt` says how pages keep its rows, and `Width.antt` how wide its groups are.
//! `Summary.antt` and `Candidates.antt` say what the summary leaves out. **Theory:**
//! docs/architecture.md, "The classifier, by one example". **Proofs:** docs/proofs.md, "Tables
//! (`field_groups`, `lookup_table`)".
#![tactic(auto)]

mod laws;
mod lines;
mod marks;
mod sharing;
mod sized;
mod summary;
mod table;
mod tops;
mod widths;

pub use laws::held_by_buckets;
pub use lines::Lines;
pub use table::FieldTable;
pub use widths::width_for;
