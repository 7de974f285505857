//! How far a run is, printed for a person at a terminal.
//!
//! [`Meter`] is a gate of `packet_pool`. It prints the section and the answered packets at most ten times a second, each text over
//! the one before it. [`InPlace`] wraps the output and the notes, and clears that text before they write.
//!
//! No status and no output depends on it. **Definitions:** none, since no contract covers it.
#![tactic(auto)]

mod meter;

pub use meter::{InPlace, Meter, Screen};
