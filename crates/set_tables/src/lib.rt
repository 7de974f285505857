//! The tables of a set as lists, and the law that a lookup in them finds the right element.
//!
//! The tables have three parts: the rules of each field, a span for each rule of all fields but the
//! last, and an end for each rule of the last. The example set has these tables:
//!
//! ```text
//! element 0:  10.0.0.5                  . 1024
//! element 1:  192.168.1.0-192.168.2.1   . 2048
//!
//! address rules   10.0.0.5, 192.168.1.0/24, 192.168.2.0/31
//! spans           from 0: 1 rule, from 1: 1 rule, from 1: 1 rule
//! port rules      1024, 2048
//! ends            place 0, place 1
//! ```
//!
//! A lookup of 192.168.1.5 . 2048 starts with all address rules. A match leaves rule 1. Its span
//! sets port rule 1 in the next row, a match leaves it there, and its end has place 1. `lookup_law`
//! says that this is the place of the first element that is live and holds the key.
//!
//! The definitions are in `specs/`. The functions here do nothing: each has a law as its contract.
//!
//! **Definitions:** `specs/Tables.antt` has the tables, and `Search.antt` and `Rows.antt` the walk
//! by a key. `Sharing.antt` has the walk by intervals, and `Laws.antt` the laws of both.
//! **Theory:** docs/architecture.md, "The classifier, by one example". **Proofs:** docs/proofs.md,
//! "A set's tables and image (`set_tables`, `mapping_table`, `pipapo_image`)".
#![tactic(auto)]

mod laws;

pub use laws::{core_law, cover_law, lookup_law, probe_law, share_law, sharing_law};

/// The rules of the next field that belong to the element of a rule.
#[derive(Clone, Copy, Debug, PartialEq, Eq)]
pub struct Span {
    /// The first of these rules.
    pub first: u32,
    /// How many there are.
    pub count: u32,
}

/// The element of a rule of the last field: its place in the list, and its expiry.
#[derive(Clone, Copy, Debug, PartialEq, Eq)]
pub struct End {
    /// The place of the element in the list, from 0.
    pub place: u64,
    /// The moment, in milliseconds, from which on it is expired. `None` if it never expires.
    pub expiry: Option<u64>,
}
