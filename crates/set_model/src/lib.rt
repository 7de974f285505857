//! The types of packet filter sets and scripts, and the definitions of what they mean.
//!
//! Take a set of one port field with two elements, both without an expiry:
//!
//! ```text
//! element 0:  ports 10-20
//! element 1:  ports 5-30
//! ```
//!
//! The definitions say what each call on such a set must do:
//!
//! - A lookup of port 15 finds element 0, the earliest inserted one that is live and holds the key.
//!   A lookup of 25 finds element 1 (`specs/SetState.antt`).
//! - Element 1 could be added, since neither of its ends is in 10-20. If it had been first, 10-20
//!   would be refused: its start is in 5-30.
//! - An element with the expiry 30,000 is live at 29,999 and expired at 30,000
//!   (`specs/Expiry.antt`).
//! - A refused change ends its transaction in strict mode. If the run keeps going, the change is
//!   skipped (`specs/Control.antt`).
//! - A packet may be looked up in the last generation before its section, in the last one after it,
//!   or in one between (`specs/Legal.antt`).
//!
//! All definitions are in `specs/`. The contracts of every other crate cite them.
//!
//! **Definitions:** docs/definitions.md says what each file of `specs/` defines, and where it comes
//! from. `proofs/Worked.antt` has worked examples, with these numbers among them.
#![tactic(auto)]

mod block;
mod element;
mod fitting;
mod kind;
mod listed;
mod memory;
mod packet;
mod report;
mod script;
mod shared;

pub use block::Block;
pub use element::{Comment, Element, Elements, NewElement, Parts, expiry_moment, is_live};
pub use fitting::{fits, is_below, is_good, parts_fit};
pub use kind::{Interval, Key, Kind, Kinds};
pub use listed::{Duplicate, Listed};
pub use memory::Memory;
pub use packet::{Found, Keys, Packet, Packets, Verdict};
pub use report::{Event, Events, Line, Lines, Why};
pub use script::{Family, Name, Schema, Script, Sections, SetDecl, Step, Steps, Verb};
pub use shared::{Contents, Shared};
