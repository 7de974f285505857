//! Answers a key at a script's last generation: the element that holds it, and the line that added it.
//!
//! Say that line 3 of a script adds 10.0.0.0/24 . 443, that line 4 adds 10.0.0.0/8 . 0-1023 with the comment "low",
//! and that line 5 deletes the first of them:
//!
//!     10.0.0.7 . 443     element 1: 10.0.0.0/8 . 0-1023 comment "low" (line 4)
//!     10.0.0.7 . 8080    none
//!
//! The words of the key are one line of a key file ([`AnswerError::BadKey`] if they aren't). [`get`] runs the script
//! and notes the line of each addition that makes an element. For each set, the lines are a list by the ids of its elements.
//! Here they are lines 3 and 4: ids 0 and 1. If a transaction is taken back, its ids are given again. So an addition
//! that makes element 1 again cuts the list to one line, and then appends its own. A renewal makes no element, and
//! the element keeps its line.
//!
//! The answer comes from the set's tables. It is the earliest inserted element that is live and holds the key.
//!
//! [`met_by`] does the steps of a script with refused changes once more, and notes the step that makes each id. If line 6 adds
//! 10.0.0.0/16 . 443, this overlaps element 1. So the change met the addition of line 4. No clause says so; tests do.
//!
//! **Definitions:** `specs/Origin.antt` has the lines, `Question.antt` the key, and `Answer.antt` the
//! answer and its text. `Tracing.antt` relates a run to them. **Theory:** docs/architecture.md, "The way
//! of a change". **Proofs:** docs/proofs.md, "A run (`packet_pool`, `script_run`)".
#![tactic(auto)]

mod answer;
mod lines;
mod met;
mod question;
mod trace;
mod trail;

pub use answer::{element_for, get};
pub use lines::Lines;
pub use met::{Met, met_by};
pub use question::{AnswerError, key_text};
pub use trace::{Trace, trace_script};
