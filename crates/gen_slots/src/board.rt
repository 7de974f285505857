//! The table that the readers and the writer share.
//!
//! Word 0 is the published slot's count of enters times 256, plus the slot's number. Word 1 + s is
//! slot s's count of leaves times 256. Entry 32 r + s of the table is reader r's berth in slot s,
//! which has its value of that slot.
//!
//! Berths of two readers never share a cache line of 64 bytes, if a berth has eight bytes or more:
//! 32 berths of eight bytes are 256 bytes. 32 is the least power of two for the eighteen slots of
//! sixteen readers. The berths are in the order of the readers.
use crate::Version;
use atomic_table::{Seat, Table, TableRule};
use std::alloc::Global;
use std::collections::LinkedList;
use std::marker::PhantomData;
use std::snapshot::Snapshot;

/// What the writer knows. Only contracts use it: no value of it is made.
pub struct Plan<X> {
    /// How many readers there are.
    pub readers: u64,
    /// Readers with a lower number were made.
    pub given: u64,
    /// The number of the published slot.
    pub published: u64,
    /// For each slot 0 if it is free, 1 if it is retired and 2 if it is published.
    pub standing: [u64; 0],
    /// Times 256: the enters of a retired slot, the leaves of a free one.
    pub counts: [u64; 0],
    /// The state of each slot. It counts only for slots that aren't free.
    pub states: LinkedList<X>,
    /// For each slot 1 if it was found in use since the last publication.
    pub tried: [u64; 0],
    /// 1 more than the free slot whose berths the writer has, or 0 if it has none.
    pub hand: u64,
    /// How many loads of done words it has made.
    pub checks: u64,
}

/// Whose seat it is. Only contracts use it: no value of it is made.
pub enum Role<X> {
    /// A note's seat, or nobody's.
    Idle,
    /// The seat of this reader, which holds nothing.
    Out(u64),
    /// The seat of this reader, and the slot that it holds.
    Holds(u64, u64),
    /// The writer's seat.
    Keeper(Plan<X>),
}

/// What a seat at the table knows. Only contracts use it: no value of it is made.
pub struct SeatView<X> {
    /// Whose seat it is.
    pub role: Role<X>,
    /// The states that it has seen, in the order of publication.
    pub seen: LinkedList<X>,
    /// The list of a note that was taken in, until it is compared with `seen`.
    pub told: LinkedList<X>,
    /// How many atomic additions it has made.
    pub moves: u64,
}

/// The start values of the table.
#[derive(Drop)]
pub struct Start<T> {
    /// A value of the state that is published first.
    pub first: Snapshot<T>,
    /// How many readers there are.
    pub readers: u64,
    /// The start of every count.
    pub count: u64,
}

/// The rule of the table.
pub struct Counted<T> {
    of: PhantomData<T>,
}

impl<T: Version> TableRule<Option<T>, SeatView<T::State>, Start<T>> for Counted<T> {
    ghost use Rattle.gen_slots.specs.SlotRule.{Kept, starting};

    ghost holds = { λ key. Kept T.state T.follows key.count };

    ghost first = { λ key. starting key.readers key.count (T.state key.first.value) };
}

/// The table: the berths of each slot, and the counting words.
pub type Board<T> = Table<Option<T>, SeatView<<T as Version>::State>, Start<T>, Counted<T>, Global>;

/// A seat at the table: what its holder knows, and the berths that its holder has.
pub type Place<T> = Seat<Option<T>, SeatView<<T as Version>::State>>;
