//! The table that the control threads share.
//!
//! Word 0 is the next ticket, and word 1 the ticket that is served. The table's one entry is the value,
//! unless the seat whose ticket is served has it.
use crate::{Logged, SeatView};
use atomic_table::{Join, Play, Seat, Shared, Split, Table, TableRule};
use std::alloc::Global;
use std::marker::PhantomData;
use std::snapshot::Snapshot;

/// What a new table is made of.
#[derive(Drop)]
pub struct Start<T> {
    /// The value before the first turn.
    pub first: Snapshot<T>,
    /// How many control threads there are.
    pub clerks: u64,
    /// How many entries each may add.
    pub each: u64,
}

/// The rule of the table.
pub struct Turned<T> {
    of: PhantomData<T>,
}

impl<T: Logged> TableRule<Option<T>, SeatView<T, T::Entry, T::State>, Start<T>> for Turned<T> {
    ghost use Rattle.log_turns.specs.LogRule.{Kept, opening_view, most};

    ghost holds = { λ key. Kept T.log T.base T.number T.clerk key.each most };

    ghost first = { λ key. opening_view key.each key.clerks (T.base key.first.value) };
}

/// The table: the value in its one entry, and the words of the line.
pub type Board<T> = Table<
    Option<T>,
    SeatView<T, <T as Logged>::Entry, <T as Logged>::State>,
    Start<T>,
    Turned<T>,
    Global,
>;

/// A seat at the table: what its holder knows, and the value if its ticket is served.
pub type Place<T> = Seat<Option<T>, SeatView<T, <T as Logged>::Entry, <T as Logged>::State>>;

/// The table, shared by all that have a seat at it.
pub type Top<T> = Shared<
    Option<T>,
    SeatView<T, <T as Logged>::Entry, <T as Logged>::State>,
    Start<T>,
    Turned<T>,
>;

// Adds 1 to word 0, whose old value is the ticket.
pub(crate) struct Draw;

impl<T: Logged> Play<Option<T>, SeatView<T, T::Entry, T::State>> for Draw {
    ghost use Rattle.log_turns.specs.LogSteps.{drew};

    ghost then = { drew };
}

// A seat with a ticket loads word 1. It takes the value if its ticket is served.
pub(crate) struct Look;

impl<T: Logged> Play<Option<T>, SeatView<T, T::Entry, T::State>> for Look {
    ghost use Rattle.log_turns.specs.LogRule.{most};
    ghost use Rattle.log_turns.specs.LogSteps.{looked};

    ghost then = { looked T.log T.base T.number T.clerk most };
}

// Stores the next ticket in word 1, and gives the value back.
pub(crate) struct Done;

impl<T: Logged> Play<Option<T>, SeatView<T, T::Entry, T::State>> for Done {
    ghost use Rattle.log_turns.specs.LogSteps.{ended_turn};

    ghost then = { ended_turn T.log T.base T.number T.clerk };
}

// Makes a control thread's seat.
pub(crate) struct Deal;

impl<B, E, G> Split<SeatView<B, E, G>> for Deal {
    ghost use Rattle.log_turns.specs.LogSteps.{given_one, next_clerk};

    ghost left = { given_one };

    ghost right = { next_clerk };
}

// One seat takes in another that is done.
pub(crate) struct Gather;

impl<B, E, G> Join<SeatView<B, E, G>> for Gather {
    ghost use Rattle.log_turns.specs.LogSteps.{gathered, spent_view};

    ghost both = { gathered };

    ghost spent = { spent_view };
}
