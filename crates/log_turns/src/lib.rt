//! Passes one value with a log from control thread to control thread, in the order of their tickets.
//!
//! # Theory of operation
//!
//! Word 0 of a table is the next ticket, word 1 is the ticket that is served, and the table's one entry is the value. A
//! control thread draws a ticket, waits until it is served, takes the value, and gives it back with what it logged.
//! Take two control threads:
//!
//! ```text
//! step                          word 0   word 1   value      log
//! start                         0        0        in table   empty
//! thread 1 draws ticket 0       1        0        in table   empty
//! thread 2 draws ticket 1       2        0        in table   empty
//! thread 1 looks: served        2        0        thread 1   empty
//! thread 2 looks: waits         2        0        thread 1   empty
//! thread 1 ends its turn        2        1        in table   1: x
//! thread 2 looks: served        2        1        thread 2   1: x
//! ```
//!
//! **Tickets.** The tickets that are out are the numbers from word 1 up to, and without, word 0, modulo 2 ^ 64. Each is
//! one control thread's, and each thread has at most one. So at most one thread has the value.
//!
//! **Logs.** The log only grows at its end. So what a control thread has seen of it is a front of it. The entries of a
//! thread are in the log as the thread added them.
//!
//! **Waiting.** The next thread in line looks again at once. A thread further back sleeps 50 microseconds for each turn
//! before its own but one, and for 16 turns at most.
//!
//! **Definitions:** `specs/LogRule.antt` is the rule of the table, `LogSteps.antt` says what each kind of step changes,
//! and `LogLaws.antt` that each step keeps the rule. **Theory:** docs/architecture.md, "Several control threads".
//! **Proofs:** docs/proofs.md, "Several control threads (`ticket_line`, `log_turns`, `control_desk`)".
#![tactic(auto)]

ghost use Rattle.std.specs.Prelude.{ℕ, List};
ghost use Rattle.log_turns.specs.LogLaws.{Queues, Logs, Opens, DrawKeeps, LookKeeps, DoneKeeps, SplitKeeps, JoinKeeps};

pub mod board;
pub mod dealing;
pub mod turn;

use std::collections::LinkedList;

/// A value with a log. No value of its ghost parts is made.
pub trait Logged {
    /// An entry of the log.
    type Entry;
    /// A state before the log's first entry.
    type State;

    ghost log: { Self → List Self.Entry };

    ghost base: { Self → List Self.State };

    // Each entry raises it by one at most.
    ghost number: { Self → ℕ };

    // The control thread of an entry.
    ghost clerk: { Self.Entry → ℕ };
}

/// Whose seat it is. No value of it is made.
pub enum Role {
    /// Nobody's.
    Idle,
    /// The seat that the control threads' seats come from, and how many were given.
    Opener(u64),
    /// A control thread's, by its number. Numbers count from 1.
    Clerk(u64),
    /// The seat for control threads that are done. It adds no more entries.
    Gatherer,
}

/// What a seat at the table knows. No value of it is made.
pub struct SeatView<B, E, G> {
    /// Whose seat it is.
    pub role: Role,
    /// How many control threads there are.
    pub threads: u64,
    /// 1 without a ticket, 2 with a ticket that isn't served yet, and 3 with the value.
    pub stage: u64,
    /// The ticket that it drew last.
    pub ticket: u64,
    /// The log as far as this seat has seen it.
    pub seen: LinkedList<E>,
    /// The states before the log's first entry.
    pub base: LinkedList<G>,
    /// How many states it may still add.
    pub left: u64,
    /// The value as it was when its last turn came.
    pub took: Option<B>,
    /// A gatherer's: the log that each control thread had seen, by its number.
    pub kept: LinkedList<(u64, LinkedList<E>)>,
}

/// What holds of the tickets and the logs between any two steps, in every interleaving.
pub fn between_steps<B, E, G>()
    ensures tickets { Queues B E G }
    ensures logs { Logs B E G }
{}

/// The table meets the rule at the start, and each kind of step keeps it. These are a draw, a look with a
/// ticket, the end of a turn, a split for a control thread's seat, and a join of seats that are done. There
/// is no other step on a word.
pub fn every_step<B, E, G>()
    ensures opening { Opens B E G }
    ensures draw { DrawKeeps B E G }
    ensures look { LookKeeps B E G }
    ensures done { DoneKeeps B E G }
    ensures split { SplitKeeps B E G }
    ensures join { JoinKeeps B E G }
{}
