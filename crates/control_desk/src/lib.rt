//! Lets several control threads submit whole transactions to one control, with one log of what was
//! done.
//!
//! Say that generation 1 of the set `ip t p` is empty. Control thread 1 adds element 0, 10.0.0.5 .
//! 1024, and commits. Control thread 2 adds element 1, 192.168.1.0-192.168.2.1 . 2048, and commits, and
//! then it flushes the set and aborts:
//!
//!     control thread 1    served: commits generation 2
//!     control thread 2    waits | served: has seen generation 1, so stale | commits generation 3 | aborts
//!
//!     log     1: add element 0, commit    generation 2
//!             2: add element 1, commit    generation 3
//!             2: flush, abort             generation 3
//!
//! A [`Book`] is the control and its log. Each transaction adds one entry to the log. At every moment
//! the log replays: done again from the generations before its first entry, it gives the committed
//! ones. The book goes from [`Clerk`] to [`Clerk`], each of which is one control thread, in the order
//! of their tickets. [`Clerk::submit`] waits for its turn. If a generation was committed that the
//! control thread hasn't seen, the answer is `Stale`, and nothing is logged. [`run_clerks`] then
//! submits again.
//!
//! An entry has its transaction's steps for contracts alone ([`LoggedSteps`]). The program keeps how many
//! there are, since the steps themselves stay in the section that was submitted.
//!
//! **Definitions:** `specs/Woven.antt` says what a log is, and `Books.antt` what a transaction does to
//! the book. `Turns.antt` and `Work.antt` say what control threads do. **Theory:**
//! docs/architecture.md, "Several control threads". **Proofs:** docs/proofs.md, "Several control
//! threads (`ticket_line`, `log_turns`, `control_desk`)".
#![tactic(auto)]

mod bell;
mod book;
mod clerk;
mod entry;
mod logged_steps;
mod opening;
mod run;
mod transaction;
mod work;

pub use bell::{Bell, QuietBell};
pub use book::Book;
pub use clerk::{Clerk, DeskError};
pub use entry::{Entry, Log};
pub use logged_steps::LoggedSteps;
pub use opening::open_desk;
pub use run::run_clerks;
