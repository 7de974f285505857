//! The mappings of a set: from one field's matched rules to the next field's, and to the elements.
//!
//! The example set has two fields and two elements:
//!
//! ```text
//! element 0:  10.0.0.5                  . 1024    address rule 0       port rule 0
//! element 1:  192.168.1.0-192.168.2.1   . 2048    address rules 1, 2   port rule 1
//! ```
//!
//! A `MapTable` has a span for each rule of a field: the first rule and the number of rules in the
//! next field. An `EndTable` has the place and the expiry of the element for each rule of the last
//! field. If element 1 expires at 30,000, the tables are:
//!
//! ```text
//! MapTable of the address field       EndTable of the port field
//! rule 0   from 0, 1 rule             rule 0   place 0, no expiry
//! rule 1   from 1, 1 rule             rule 1   place 1, expiry 30,000
//! rule 2   from 1, 1 rule
//! ```
//!
//! If address rule 1 is matched, `refill` sets port rule 1 alone in the next field's row. If port
//! rule 1 is matched, `first_live` returns it at moment 29,999, and nothing at 30,000.
//!
//! If element 0 leaves, its rule leaves both tables. The spans of later rules then begin one rule
//! lower, at 0, and the place of the last end becomes 0.
//!
//! For each word of 64 rules the `EndTable` also has a moment by which all ends of the word are
//! expired. A lookup skips such a word at once (`is_word_expired`). Both tables keep their rules in
//! pages of 512, which copies share.
//!
//! **Definitions:** `specs/Spared.antt` has the items in their pages and the room for more, and
//! `Latest.antt` the moments. `specs/Tables.antt` and `Rows.antt` of `set_tables` say what spans
//! and ends mean. **Theory:** docs/architecture.md, "The classifier, by one example". **Proofs:**
//! docs/proofs.md, "A set's tables and image (`set_tables`, `mapping_table`, `pipapo_image`)".
#![tactic(auto)]

mod ends;
mod latest;
mod map;
mod roomy;

pub use ends::EndTable;
pub use map::MapTable;
