//! Laws of histories, which are lists of states in the order in which they came.
//!
//! If reader 0 has seen the states a, b, c and reader 1 the states a, b, both lists begin the
//! writer's list a, b, c, d. So the shorter begins the longer, and the longer begins the writer's
//! list (`prefixes_of_one`). Other laws are of the views of a shared table, of which a step changes
//! one.
//!
//! **Definitions:** `specs/Histories.antt` says when a list begins or ends another, and which is
//! the longer. `States.antt` says when values have one state. **Theory:** docs/architecture.md,
//! "Readers beside a writer". **Proofs:** docs/proofs.md, "Shared words (`gen_slots`,
//! `gen_turns`)".
#![tactic(auto)]

ghost use Rattle.history_laws.specs.Histories.{PrefixesOfOne};

/// If two histories both begin a third, each begins the longer one, and the longer one begins the
/// third.
pub fn prefixes_of_one<T>()
    ensures { PrefixesOfOne T }
{}
