//! Writes keys and elements of a set in nft's form.
//!
//! A key is written as a key file has it, and an element in parts, so that each report joins the parts that it needs:
//!
//! ```text
//! write_key        192.0.2.77 . 443
//! write_intervals  192.0.2.0/24 . 80-443
//! write_comment     comment "web"
//! write_line        (line 6)
//! ```
//!
//! A comment and a line begin with a blank, since they follow something. An element without a comment, or whose line isn't noted,
//! has no text there. If memory runs out, a writer has appended a front of its text, and the bytes before it are as they were.
//!
//! **Definitions:** `specs/ElementText.antt` has the texts, and `Kept.antt` what stays. **Proofs:** `proofs/JoinLaws.antt` has the
//! laws on values with a separator between them.
#![tactic(auto)]

mod elements;
mod keys;

pub use elements::{write_comment, write_intervals, write_line};
pub use keys::write_key;
