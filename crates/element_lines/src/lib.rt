//! Writes the lines of packets with the elements that were found, and the lines of the script that added them.
//!
//! Say that line 6 of a script adds 192.0.2.0/24 . 80-443 with the comment "web", and that a packet finds it:
//!
//!     packet 0 thread 0 generation 1 element 0 { 192.0.2.0/24 . 80-443 comment "web" } line 6
//!
//! An element keeps its intervals and its comment from its addition on ([`additions_law`]). So the addition says what was found,
//! whichever generation a packet sees. [`Additions::new`] runs the script once more, each step on a line of its own: then the crate
//! `key_answer` notes for each id the step that made it. If a transaction is taken back, its ids are given again. No packet finds
//! what was taken back, so an id's last addition is the one that the packet's element came from.
//!
//! A packet's line has its number. So [`Additions::write`] knows its set, and looks the step up by the set and the id.
//! [`transcript_with_elements`] returns the transcript of a run with such lines.
//!
//! **Definitions:** `specs/Additions.antt` says which step made an element, and `ElementLines.antt` what is written.
//! **Theory:** docs/architecture.md, "The way of a change". **Proofs:** docs/proofs.md, "A run (`packet_pool`, `script_run`)".
#![tactic(auto)]

mod additions;
mod steps;
mod transcript;

pub use additions::{Additions, additions_law};
pub use transcript::transcript_with_elements;
