//! A set as a list of elements with their tables, and the lookup that reads the tables alone.
//!
//! The example set has two fields and two elements:
//!
//! ```text
//! element 0:  10.0.0.5                  . 1024    address rule 0       port rule 0
//! element 1:  192.168.1.0-192.168.2.1   . 2048    address rules 1, 2   port rule 1
//! ```
//!
//! An `Index` has the tables of the elements: a lookup table for each field, a mapping from each
//! field to the next, and the ends of the last field. A lookup of 192.168.1.5 . 2048 goes through
//! them in this order:
//!
//! ```text
//! address table   192.168.1.5 is held by rule 1
//! mapping         address rule 1 leads to port rule 1
//! port table      2048 is held by port rule 1
//! ends            port rule 1 leads to element 1, and the end has its expiry
//! ```
//!
//! If several ends are live, the lowest rule gives the answer: the earliest inserted element.
//! `Index::find_values` takes these steps word by word of 64 rules. `Index::find_plain` takes them
//! row by row.
//!
//! A `SetImage` is a set: its elements, and the index of exactly these elements between calls. A third
//! element would get the next rules, from address rule 3 and port rule 2 on. If element 0 leaves,
//! address rules 1 and 2 become 0 and 1, and port rule 1 becomes 0.
//!
//! An insertion is decided first ([`Decision`]) and then carried out. So a caller can decide on a
//! shared set, and carry out the decision on a copy. A change takes all memory before its first
//! step.
//!
//! **Definitions:** `specs/Index.antt` and `Image.antt` say what an index and a set keep.
//! `Image/Insert.antt`, `Image/Remove.antt` and `Image/Found.antt` say what calls return.
//! `Image/Apart.antt` says what holds of disjoint sets, and `Image/Accepted.antt` that no accepted
//! element is hidden. **Theory:** docs/architecture.md, "The classifier, by one example".
//! **Proofs:** docs/proofs.md, "A set's tables and image (`set_tables`, `mapping_table`,
//! `pipapo_image`)".
#![tactic(auto)]

mod answers;
mod image;
mod index;
mod laws;

pub use answers::{Added, ChangeError};
pub use image::SetImage;
pub use image::decision::Decision;
pub use index::scratch::Scratch;
pub use index::{Fields, Index, Maps};
pub use laws::{accepted_law, apart_law};
