//! The table that the readers and the writer share.
//!
//! Word 0 is the next ticket, and word 1 the ticket that is served. The table's one entry is the
//! vector of values. The seat whose ticket is served may take it.
use crate::Version;
use atomic_table::{Seat, Table, TableRule};
use std::alloc::Global;
use std::collections::LinkedList;
use std::marker::PhantomData;
use std::snapshot::Snapshot;

/// The vector that goes from turn to turn, with one place for each reader: a value of the last state that was published,
/// or nothing once the reader took it.
pub type Places<T> = Vec<Option<T>>;

/// Whose seat it is. Only contracts use it: no value of it is made.
pub enum Role {
    /// A note's seat, or nobody's.
    Idle,
    /// The seat of this reader.
    Reader(u64),
    /// The writer's seat: the number of readers, and the number below which readers were made.
    Keeper(u64, u64),
}

/// What a seat at the table knows. Only contracts use it: no value of it is made.
pub struct SeatView<T, X> {
    /// Whose seat it is.
    pub role: Role,
    /// 1 without a ticket, 2 with a ticket that is not served yet, and 3 with the vector.
    pub stage: u64,
    /// The ticket that it drew last.
    pub ticket: u64,
    /// The states that it has seen, in the order of publication.
    pub seen: LinkedList<X>,
    /// For a reader, what it had seen at its last enter. Before its first enter it is the first
    /// list.
    pub entered: LinkedList<X>,
    /// The list of a note that was taken in, until it is compared with `seen`.
    pub told: LinkedList<X>,
    /// What was published at its last turn.
    pub whole: LinkedList<X>,
    /// What the vector held at its last turn.
    pub took: LinkedList<Option<T>>,
}

/// The start values of the table.
#[derive(Drop)]
pub struct Start<T> {
    /// A value of the state that is published first.
    pub first: Snapshot<T>,
    /// How many readers there are.
    pub readers: u64,
}

/// The rule of the table.
pub struct Turned<T> {
    of: PhantomData<T>,
}

impl<T: Version> TableRule<Option<Places<T>>, SeatView<T, T::State>, Start<T>> for Turned<T> {
    ghost use Rattle.gen_turns.specs.TurnRule.{Kept, starting};

    ghost holds = { λ _. Kept T.state T.follows };

    ghost first = { λ key. starting key.readers (T.state key.first.value) };
}

/// The table: the vector in its one entry, and the words of the ticket line.
pub type Board<T> = Table<
    Option<Places<T>>,
    SeatView<T, <T as Version>::State>,
    Start<T>,
    Turned<T>,
    Global,
>;

/// A seat at the table: what its holder knows, and the vector if its ticket is served.
pub type Place<T> = Seat<Option<Places<T>>, SeatView<T, <T as Version>::State>>;
