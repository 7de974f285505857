//! Writes the results of runs as text: events, packets' lines, listings, dumps and the summary of a
//! drill.
//!
//! The dump of the example of docs/architecture.md has for its address field (`row 1`, `row 2` and the
//! port left out here)
//!
//!     field 0 ipv4_addr width 8 rules 3
//!     row 0 10-10 01           bucket 10 of group 0: rule 0
//!     row 0 192-192 06         rules 1 and 2
//!     row 3 0-1 06             buckets 0 and 1 of group 3: rules 1 and 2
//!     row 3 2-4 02
//!     row 3 5-5 03
//!     row 3 6-255 02
//!     map 0 1                  rule 0 leads to port rule 0, one rule
//!     map 1 1                  rule 1 to port rule 1
//!     map 1 1                  rule 2 to port rule 1
//!
//! Rule r is bit r of a bitmap, so 06 is rules 1 and 2. A listing has the same set as a script, with
//! `10.0.0.5 . 1024` and `192.168.1.0-192.168.2.1 . 2048` as its elements. The events come before a
//! listing or a dump as comments.
//!
//! Each writer appends exactly its text to one buffer. If memory runs out, it has appended a front of
//! the text.
//!
//! **Definitions:** `specs/ListText.antt`, `DumpText.antt`, `Remarks.antt`, `SummaryText.antt` and
//! `KindText.antt` have the texts. `PacketLine.antt` says what a packet's line determines. The texts of
//! events are in `specs/Text.antt` of `set_model`. **Theory:** docs/formats.md, "The transcript",
//! "`list`" and "`dump`". **Proofs:** docs/proofs.md, "Listings and dumps (`set_report`)".
#![tactic(auto)]

mod dump;
mod events;
mod kinds;
mod lines;
mod list;
mod remarks;
mod summary;

pub use dump::write_dump;
pub use events::write_events;
pub use lines::{packet_line_law, write_lines};
pub use list::{write_element, write_list};
pub use remarks::write_remarks;
pub use summary::write_summary;
