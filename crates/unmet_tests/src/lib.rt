//! Names the tests of a rules file that no packet can meet, on the standard error.
//!
//! A packet meets no test of a set whose kinds aren't those of its own set. Say that the set `inet filter blocked`
//! has addresses, that `inet filter web` has addresses and ports, and that each packet has a key for `web`. Then
//! the first rule of this chain is never applied:
//!
//!     rules:1:14: 'in' is never met: no packet has a key for inet filter blocked (ipv4_addr); the keys here are of ipv4_addr . inet_service
//!     chain main { in inet filter blocked drop ; in inet filt..
//!                  ^^
//!
//! It is proved that the note is exactly this text for each such test, in the order of the file. After ten tests it
//! says how many more there are ([`unmet_note`]). A byte that isn't printable ASCII appears as its number, as
//! `\x1b` does, so no file can move a terminal.
//!
//! **Definitions:** `specs/UnmetText.antt`, and `Unmet.antt` of `rule_chain`. **Theory:** docs/formats.md, "Rules
//! files" and "The standard error".
#![tactic(auto)]

mod note;
mod plan;
mod types;
mod words;

pub use note::unmet_note;
pub use plan::plan_types;
