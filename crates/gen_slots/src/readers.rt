//! The readers, which never wait.
ghost use Rattle.std.specs.Prelude.{◌≡◌, ◌+◌, ◌*◌, ◌≤◌, ◌<◌, [], ◌∷◌, None};
ghost use Rattle.std.specs.Arc.{arc_value};
ghost use Rattle.history_laws.specs.Histories.{StartsWith, EndsWith, Chain, longer};
ghost use Rattle.gen_slots.specs.SlotViews.{IsSized, pass_view};
ghost use Rattle.gen_slots.specs.declared.board.Role.TheVariants.{Out};

use crate::Version;
use crate::board::{Board, Place};
use crate::kinds::{Enter, Learn, Leave, Meet, Tell};
use crate::notes::Note;
use std::alloc::Global;
use std::marker::Model;
use std::sync::Arc;

/// A reader that holds nothing.
#[derive(Drop)]
pub struct Pass<T: Version + Drop> {
    board: Arc<Board<T>, Global>,
    place: Place<T>,
    reader: usize,
}

impl<T: Version + Drop> Model for Pass<T> {
    ghost use Rattle.std.specs.Prelude.{◌≡◌, ◌<◌, []};
    ghost use Rattle.std.specs.Arc.{arc_value};
    ghost use Rattle.history_laws.specs.Histories.{Chain};
    ghost use Rattle.gen_slots.specs.SlotViews.{IsSized, PassView, pass_view};
    ghost use Rattle.gen_slots.specs.declared.board.Role.TheVariants.{Out};

    ghost Value = { PassView T.State };

    ghost view = { λ p. pass_view p.place.table_id p.place.me.0 p.reader };

    ghost invariant = { λ p. (p.place.table_id ≡ (arc_value p.board).shared.table_id) × IsSized p.place.table_id × (p.reader < 16) × (p.place.me.0.role ≡ Out p.reader) × (p.place.me.1 ≡ []) × Chain T.follows p.place.me.0.seen };
}

/// A reader that holds a slot, with its value of that slot. The slot isn't used again until
/// `leave`. If the `Held` is dropped, it is never used again.
#[derive(Drop)]
pub struct Held<T: Version + Drop> {
    board: Arc<Board<T>, Global>,
    place: Place<T>,
    reader: usize,
    slot: usize,
    value: T,
}

impl<T: Version + Drop> Model for Held<T> {
    ghost use Rattle.std.specs.Prelude.{◌≡◌, ◌+◌, ◌*◌, ◌≤◌, ◌<◌, [], ◌∷◌, None};
    ghost use Rattle.std.specs.Arc.{arc_value};
    ghost use Rattle.history_laws.specs.Histories.{EndsWith, Chain};
    ghost use Rattle.gen_slots.specs.SlotViews.{IsSized, PassView, pass_view};
    ghost use Rattle.gen_slots.specs.declared.board.Role.TheVariants.{Holds};

    ghost Value = { PassView T.State };

    ghost view = { λ p. pass_view p.place.table_id p.place.me.0 p.reader };

    ghost invariant = { λ p. (p.place.table_id ≡ (arc_value p.board).shared.table_id) × IsSized p.place.table_id × (p.reader < 16) × (32 * p.slot < p.place.table_id.slots + 64) × (p.place.me.0.role ≡ Holds p.reader p.slot) × (p.place.me.1 ≡ (32 * p.reader + p.slot, None) ∷ []) × EndsWith p.place.me.0.seen (T.state p.value) × Chain T.follows p.place.me.0.seen };
}

impl<T: Version + Drop> Pass<T> {
    pub(crate) fn seated(board: Arc<Board<T>, Global>, place: Place<T>, reader: usize) -> Pass<T>
        requires table { (place.table_id ≡ (arc_value board).shared.table_id) × IsSized place.table_id × (reader < 16) }
        requires seat { (place.me.0.role ≡ Out reader) × (place.me.1 ≡ []) × Chain T.follows place.me.0.seen }
        ensures { result ≡ pass_view place.table_id place.me.0 reader }
    {
        Pass {
            board,
            place,
            reader,
        }
    }

    /// Enters the slot that is published at this call's one atomic addition. The reader holds that
    /// slot. It takes no memory.
    pub fn enter(self) -> Held<T>
        ensures seen { StartsWith result.seen self.seen }
        ensures moves { result.moves ≡ self.moves + 1 }
        ensures same { (result.of ≡ self.of) × (result.reader ≡ self.reader) }
    {
        let Self {
            board,
            mut place,
            reader,
        } = self;
        let shared = &board.shared;
        let slot = (shared.fetch_add::<Enter>(&mut place, 0, 256) % 256) as usize;
        let value = shared
            .exchange(&mut place, 32 * reader + slot, None)
            .unwrap();
        Held {
            board,
            place,
            reader,
            slot,
            value,
        }
    }

    /// A note of what this reader has seen, for another thread to take in. It takes no memory.
    pub fn note(&mut self) -> Note<T>
        ensures note { (result.of ≡ self.old.of) × (result.list ≡ self.old.seen) }
        ensures same { self.new ≡ self.old }
    {
        let shared = &self.board.shared;
        Note::seated(shared.split_seat::<Tell>(&mut self.place))
    }

    /// Takes a note in: of the two lists one is a beginning of the other, and the reader has then
    /// seen the longer one. It takes no memory.
    pub fn meet(&mut self, note: Note<T>)
        requires { note.of ≡ self.old.of }
        ensures seen { self.new ≡ record self.old { seen = longer self.old.seen note.list } }
        ensures one_list { StartsWith self.new.seen self.old.seen × StartsWith self.new.seen note.list }
    {
        let shared = &self.board.shared;
        shared.join_seat::<Meet>(&mut self.place, note.into_place());
        shared.load::<Learn>(&mut self.place, 0);
    }

    /// A law: each state of the list may follow the one before it. It does nothing.
    pub fn known(&self)
        ensures { Chain T.follows self.now.seen }
    {
        let _ = &self.place;
    }
}

impl<T: Version + Drop> Held<T> {
    /// The value of the held slot. Its state is the last that this reader has seen.
    pub fn get(&self) -> &T
        ensures { EndsWith self.now.seen (T.state result.now) }
    {
        &self.value
    }

    /// Leaves the slot. The reader holds nothing after the atomic addition that this call makes. It
    /// takes no memory.
    pub fn leave(self) -> Pass<T>
        ensures { result ≡ record self { moves = self.moves + 1 } }
    {
        let Held {
            board,
            mut place,
            reader,
            slot,
            value,
        } = self;
        let shared = &board.shared;
        shared.exchange(&mut place, 32 * reader + slot, Some(value));
        shared.fetch_add::<Leave>(&mut place, 1 + slot, 256);
        Pass {
            board,
            place,
            reader,
        }
    }

    /// A law: each state of the list may follow the one before it. It does nothing.
    pub fn known(&self)
        ensures { Chain T.follows self.now.seen }
    {
        let _ = &self.place;
    }
}
