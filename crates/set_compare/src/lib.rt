//! Tells whether two sets decide alike, and finds the least key on which they don't.
//!
//! A packet passes or fails by whether its set finds an element. So two sets decide alike if for
//! each key both find an element, or neither does. The order, the splitting and the number of the
//! elements don't matter: 256 addresses equal their /24.
//!
//! [`first_missing`] looks for the least key that one set finds and another doesn't. It keeps a list
//! of regions, which have one interval per field, and looks up the least key of a region:
//!
//! ```text
//! the region                    10.0.0.0-10.0.0.3 . 80-83     least key 10.0.0.0 . 80
//! the other set finds           10.0.0.0-10.0.0.1 . 80-81
//! above it in the addresses     10.0.0.2-10.0.0.3 . 80-83     a region of 8 keys
//! above it in the ports         10.0.0.0-10.0.0.1 . 82-83     a region of 4 keys
//! ```
//!
//! The element that was found holds the region's least key, so nothing of the region is below the
//! element. What is left is at most one region per field. These regions have fewer keys than the
//! region had, so the search ends.
//!
//! If the other set doesn't find a region's least key, that key is a witness. A region whose least
//! key doesn't come before the least witness so far is dropped. If both sets have the same elements,
//! each element takes one lookup and leaves no region.
//!
//! [`compare`] makes the search in both directions.
//!
//! **Definitions:** `specs/Missing.antt` says what a missing key is, and `specs/Search.antt` what a
//! step of the search keeps. **Theory:** docs/architecture.md, "What two sets decide differently".
//! **Proofs:** docs/proofs.md, "The comparison of two sets (`set_compare`)".
#![tactic(auto)]

mod difference;
mod kinds;
mod missing;
mod region;
mod search;

pub use difference::{Difference, compare};
pub use kinds::have_same_kinds;
pub use missing::{Lack, first_missing};
