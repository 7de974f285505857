//! Generations under a ticket lock: readers and one writer wait for their turns, and take the one
//! vector of values.
//!
//! Word 0 is the next ticket, and word 1 the ticket that is served. Two readers and a writer take
//! turns so:
//!
//! ```text
//!                         word 0   word 1   reader 0's place   reader 1's place
//! start                   0        0        empty              empty
//! writer publishes b      1        1        b                  b
//! reader 0 enters         2        2        empty              b
//! writer publishes c      3        3        c                  c
//! ```
//!
//! Each turn draws a ticket, waits until word 1 is this ticket, takes the vector, gives it back,
//! and stores the next ticket in word 1. A reader takes the value out of its own place. If the
//! place is empty, it keeps the value that it has.
//!
//! The contract is the one of `gen_slots`, but entering and publishing wait for a turn. No crate of
//! the product uses this one: it is there to compare.
//!
//! **Definitions:** `specs/TurnRule.antt` is the rule of the lock and the vector, and
//! `TurnSteps.antt` has the clauses of each kind of step. `TurnViews.antt` says what contracts see.
//! **Theory:** docs/architecture.md, "The plain representation". **Proofs:** docs/proofs.md,
//! "Shared words (`gen_slots`, `gen_turns`)".
#![tactic(auto)]

pub mod board;
mod kinds;
pub mod laws;
pub mod making;
pub mod notes;
pub mod publisher;
pub mod readers;
mod turn;

pub use making::make;
pub use notes::Note;
pub use publisher::Writer;
pub use readers::{Held, Pass};

/// A value with a plain state that doesn't change.
pub trait Version {
    /// What the values of one publication have in common. No value of it is made.
    type State;

    ghost state: { Self → Self.State };

    // The second state may be published right after the first.
    ghost follows: { Self.State → Self.State → Type 0 };
}
