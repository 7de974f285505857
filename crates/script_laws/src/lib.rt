//! What every run of a script needs: laws on the control after its sections, and what a run returns.
//!
//! Say that section 0 of a script adds 10.0.0.5 . 1024 to a set and commits, and that section 1 deletes it and commits. The
//! definition's control takes the sections one after another, and the laws say what stays true of it:
//!
//!     at the start       generation 0 is committed, and no change is open
//!     after section 0    generations 0 and 1, in the order of their numbers
//!     after section 1    generations 0, 1 and 2, each with the declared sets
//!
//! A run compares its own control with this one after each section (`StandsAt` of `packet_pool`). [`has_numbers`] asks before a
//! section if its generations can be numbered: at generation 1, a section of two steps commits generation 3 at most.
//!
//! `script_run` runs the sections beside packets, and `desk_run` runs them as control threads. Both return an [`Output`], and
//! [`tells_refusal`] decides its mark. An output has its text and the facts in it: [`add_refusals`] takes the refused changes
//! from the events, each as a [`Refusal`], and [`has_failed`] asks if the last transaction failed.
//!
//! **Definitions:** `specs/Sections.antt` and `Reports.antt`. `specs/Control.antt` of `set_model` defines the control. **Theory:**
//! docs/architecture.md, "The way of a run". **Proofs:** docs/proofs.md, "A run (`packet_pool`, `script_run`)".
#![tactic(auto)]

mod begin;
mod numbers;
mod output;
mod refusals;

pub use begin::start_run;
pub use numbers::has_numbers;
pub use output::Output;
pub use refusals::{Refusal, add_refusals, has_failed, tells_refusal};
