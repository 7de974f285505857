//! Starts a control and its readers by a script's text.
//!
//! A program that embeds the sets has its rules as a text. Take this script:
//!
//!     add set ip t ports { type inet_service ; flags interval ; }
//!     add element ip t ports { 80-443 }
//!
//! [`start_script`] makes a control of one set. It does the steps of all sections, one after another, as the command `list`
//! does. Here the end of the section commits generation 1, which has the element. Each reader has met the control after
//! that, so it enters no generation before this one. A script that only declares sets leaves generation 0.
//!
//! Nothing is started if a change is refused, or if the text isn't a script. A [`StartError`] has the line.
//!
//! **Definitions:** `specs/Scripted.antt`. What a text means is in `set_script`, and what its steps do in `set_model`
//! (`specs/Control.antt`). **Theory:** docs/architecture.md, "The way of a run". **Proofs:** docs/proofs.md, "A run
//! (`packet_pool`, `script_run`)".
#![tactic(auto)]

mod error;
mod meeting;
mod sections;
mod starting;

pub use error::StartError;
pub use starting::{Started, start_script};
