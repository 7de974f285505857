//! Slots of generations: readers enter the published slot, and one writer publishes the next
//! generation without waiting.
//!
//! With two readers there are four slots. Readers and writer share these words:
//!
//! ```text
//! word 0, published       enters of the published slot * 256 + its number
//! word 1 + s, done[s]     leaves of slot s * 256
//! ```
//!
//! Each reader has a berth in each slot, with a value of the slot's state. Enter and leave are one
//! atomic addition of 256 each. All counts start at 0, and slot 0 is published:
//!
//! ```text
//!                       word 0        done[0]     slot 0        slot 1
//! start                 0 * 256 + 0   0           published     free
//! reader 0 enters       1 * 256 + 0   0           published     free
//! reader 1 enters       2 * 256 + 0   0           published     free
//! reader 1 leaves       2 * 256 + 0   1 * 256     published     free
//! writer publishes 1    0 * 256 + 1   1 * 256     retired, 2    published
//! reader 0 leaves       0 * 256 + 1   2 * 256     retired, 2    published
//! ```
//!
//! The writer swaps word 0, and keeps the old one's count of enters, here 2. A check compares it
//! with `done[0]`. After reader 1 left they differ, since reader 0 holds slot 0. After reader 0
//! left they agree: nobody holds slot 0, and it is free again.
//!
//! Each reader holds at most one slot and one slot is published, so one of readers + 2 slots is
//! free. The writer finds it in at most readers + 1 checks. A publication puts the new values into
//! the berths of that slot, and hands back what was in them.
//!
//! No step resets a count. A slot starts with its leaves as its enters. Counts are modulo 2 to the
//! power 56, and are compared for equality only.
//!
//! **Definitions:** `specs/SlotRule.antt` is the rule of the shared words, and `SlotSteps.antt` has
//! the clauses of each kind of step. `SlotViews.antt` says what contracts see of readers and
//! writer. `SlotMachine.antt` is the machine without threads. **Theory:** docs/architecture.md,
//! "Readers beside a writer". **Proofs:** docs/proofs.md, "Shared words (`gen_slots`,
//! `gen_turns`)".
#![tactic(auto)]

pub mod board;
pub mod counter;
mod kinds;
pub mod laws;
pub mod machine;
pub mod making;
pub mod notes;
pub mod publisher;
pub mod readers;

pub use counter::Steps;
pub use machine::{SlotCore, Standing};
pub use making::{make, make_at};
pub use notes::Note;
pub use publisher::Writer;
pub use readers::{Held, Pass};

/// A value with a plain state that doesn't change.
pub trait Version {
    /// What the values of one publication have in common. No value of it is made.
    type State;

    ghost state: { Self → Self.State };

    // The second state may be published right after the first.
    ghost follows: { Self.State → Self.State → Type 0 };
}
