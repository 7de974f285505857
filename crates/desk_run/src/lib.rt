//! Runs a script's first section alone, and each later section as a control thread at one desk.
//!
//! # Theory of operation
//!
//! Take a script of three sections. The first adds port 22 to a set of ports. The second adds port 80 and commits, and the
//! third adds port 443 and commits. [`desk`] runs it so:
//!
//! ```text
//! the control alone    section 0    adds port 22, commits generation 1
//! control thread 1     section 1    adds port 80, commits
//! control thread 2     section 2    adds port 443, commits
//! ```
//!
//! **Order.** The control threads submit whole transactions to one control. Their schedule decides which of them is
//! first, so either commit may make generation 2. The log has the transactions in the order in which the control did
//! them.
//!
//! **Text.** [`desk`] returns the first section's reports, the reports of the log's transactions in their order, and the
//! last generation as a script. Reports are comments, so nft(8) reads the text.
//!
//! **Steps.** If a change was refused, [`desk`] also returns the steps in the order of the log. The log doesn't have them:
//! each transaction leaves the end of its section, the log's last one first.
//!
//! **No later sections.** Then no desk is opened, and the log is empty.
//!
//! **Definitions:** `specs/DeskText.antt`, over `control_desk`'s `specs/Woven.antt`. **Theory:**
//! docs/architecture.md, "The way of a run" and "Several control threads". **Proofs:** docs/proofs.md,
//! "Several control threads (`ticket_line`, `log_turns`, `control_desk`)".
#![tactic(auto)]

mod gate_bell;
mod order;
mod running;
mod text;
mod whole;

pub use whole::desk;
