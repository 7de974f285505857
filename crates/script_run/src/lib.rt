//! Runs whole scripts beside key files, section by section, and makes the texts that commands print.
//!
//! Say that section 0 of a script adds 10.0.0.5 . 1024 and 192.168.1.0-192.168.2.1 . 2048 to a set and
//! commits, and that section 1 deletes the first of them. The key file has a packet for each of them in
//! section 1, and one for the first in section 2:
//!
//!     section 0    commit generation 1 purged 0
//!     section 1    commit generation 2 purged 0
//!                  packet 0 thread 0 generation 1 element 0    or: generation 2 none
//!                  packet 1 thread 0 generation 2 element 1    or: generation 1 element 1
//!     section 2    packet 2 thread 0 generation 2 none
//!
//! Section 0 runs alone. The steps of each later section run beside the packets of the key section with
//! the same number. So the packets of section 1 see generation 1 or 2, which the schedule decides.
//! Section 2 has no steps, and its packet sees generation 2. The lines of a section's steps come before
//! the lines of its packets.
//!
//! [`transcript`] and [`judged`] return the text of a run, whose packets are looked up or judged by
//! chains of rules. [`told_by`] runs any judge that writes its packets' lines ([`Teller`]). [`listing`] and
//! [`dump`] return the last generation, and [`drill`] the line of a generated workload.
//!
//! **Definitions:** `specs/Telling.antt`, `Listings.antt` and `Drill.antt`. `specs/Legal.antt` of
//! `set_model` says which transcripts are legal. **Theory:** docs/architecture.md, "The way of a run"
//! and "One section, step by step". **Proofs:** docs/proofs.md, "A run (`packet_pool`, `script_run`)".
#![tactic(auto)]

mod drilling;
mod output;
mod teller;
mod telling;
mod whole;

pub use drilling::drill;
pub use output::{dump, judged, listing, told_by, transcript};
pub use script_laws::{Output, Refusal, has_numbers};
pub use teller::Teller;
pub use whole::Whole;
