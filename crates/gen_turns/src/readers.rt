//! The readers, which wait for their turns.
ghost use Rattle.std.specs.Prelude.{◌≡◌, ◌+◌, [], ◌∷◌, None, slice_set};
ghost use Rattle.std.specs.Arc.{arc_value};
ghost use Rattle.history_laws.specs.Histories.{StartsWith, EndsWith, Chain, longer};
ghost use Rattle.gen_turns.specs.TurnViews.{IsSized, pass_view};
ghost use Rattle.gen_turns.specs.declared.board.Role.TheVariants.{Reader};

use crate::Version;
use crate::board::{Board, Place, Places};
use crate::kinds::{EndEnter, Learn, Meet, Tell};
use crate::notes::Note;
use crate::turn::{Top, take_turn};
use std::alloc::Global;
use std::marker::Model;
use std::sync::{Arc, Wait};

/// A reader that holds nothing. It keeps its value of the state of its last enter.
#[derive(Drop)]
pub struct Pass<T: Version + Drop> {
    board: Arc<Board<T>, Global>,
    place: Place<T>,
    reader: usize,
    value: T,
}

impl<T: Version + Drop> Model for Pass<T> {
    ghost use Rattle.std.specs.Prelude.{◌≡◌, []};
    ghost use Rattle.std.specs.Arc.{arc_value};
    ghost use Rattle.history_laws.specs.Histories.{EndsWith, Chain};
    ghost use Rattle.gen_turns.specs.TurnViews.{IsSized, PassView, pass_view};
    ghost use Rattle.gen_turns.specs.declared.board.Role.TheVariants.{Reader};

    ghost Value = { PassView T.State };

    ghost view = { λ p. pass_view p.place.table_id p.place.me.0.seen p.reader };

    ghost invariant = { λ p. (p.place.table_id ≡ (arc_value p.board).shared.table_id) × IsSized p.place.table_id × (p.place.me.0.role ≡ Reader p.reader) × (p.place.me.0.stage ≡ 1) × (p.place.me.1 ≡ []) × EndsWith p.place.me.0.entered (T.state p.value) × Chain T.follows p.place.me.0.seen };
}

/// A reader that has entered, with its value of the state of this enter.
#[derive(Drop)]
pub struct Held<T: Version + Drop> {
    board: Arc<Board<T>, Global>,
    place: Place<T>,
    reader: usize,
    value: T,
}

impl<T: Version + Drop> Model for Held<T> {
    ghost use Rattle.std.specs.Prelude.{◌≡◌, []};
    ghost use Rattle.std.specs.Arc.{arc_value};
    ghost use Rattle.history_laws.specs.Histories.{EndsWith, Chain};
    ghost use Rattle.gen_turns.specs.TurnViews.{IsSized, PassView, pass_view};
    ghost use Rattle.gen_turns.specs.declared.board.Role.TheVariants.{Reader};

    ghost Value = { PassView T.State };

    ghost view = { λ p. pass_view p.place.table_id p.place.me.0.seen p.reader };

    ghost invariant = { λ p. (p.place.table_id ≡ (arc_value p.board).shared.table_id) × IsSized p.place.table_id × (p.place.me.0.role ≡ Reader p.reader) × (p.place.me.0.stage ≡ 1) × (p.place.me.1 ≡ []) × (p.place.me.0.entered ≡ p.place.me.0.seen) × EndsWith p.place.me.0.seen (T.state p.value) × Chain T.follows p.place.me.0.seen };
}

// Gives back the vector with the reader's own place empty, and lets the next ticket be served.
fn end_turn<T: Version + Drop>(
    top: &Top<T>,
    place: &mut Place<T>,
    reader: usize,
    ticket: u64,
    places: Places<T>,
)
    requires table { (place.old.table_id ≡ top.now.table_id) × IsSized place.old.table_id }
    requires seat { (place.old.me.0.role ≡ Reader reader) × (place.old.me.0.stage ≡ 3) × (place.old.me.0.ticket ≡ ticket) × (place.old.me.1 ≡ (0, None) ∷ []) }
    requires places { places.items ≡ slice_set place.old.me.0.took reader None }
    ensures table { place.new.table_id ≡ place.old.table_id }
    ensures seat { place.new.me ≡ (record place.old.me.0 { stage = 1; seen = place.old.me.0.whole; entered = place.old.me.0.whole }, []) }
{
    top.exchange(place, 0, Some(places));
    top.store::<EndEnter>(place, 1, ticket.wrapping_add(1));
}

impl<T: Version + Drop> Pass<T> {
    pub(crate) fn seated(
        board: Arc<Board<T>, Global>,
        place: Place<T>,
        reader: usize,
        value: T,
    ) -> Pass<T>
        requires table { (place.table_id ≡ (arc_value board).shared.table_id) × IsSized place.table_id }
        requires seat { (place.me.0.role ≡ Reader reader) × (place.me.0.stage ≡ 1) × (place.me.1 ≡ []) × Chain T.follows place.me.0.seen }
        requires value { EndsWith place.me.0.entered (T.state value) }
        ensures { result ≡ pass_view place.table_id place.me.0.seen reader }
    {
        Pass {
            board,
            place,
            reader,
            value,
        }
    }

    /// Enters with the state that is published at this reader's turn. The call waits for this turn,
    /// and takes no memory.
    pub fn enter<R: Wait>(self, rt: &R) -> Held<T>
        ensures seen { StartsWith result.seen self.seen }
        ensures same { (result.of ≡ self.of) × (result.reader ≡ self.reader) }
    {
        let Self {
            board,
            mut place,
            reader,
            value,
        } = self;
        let shared = &board.shared;
        let (ticket, mut places) = take_turn(rt, shared, &mut place);
        let fresh = places[reader].take();
        end_turn(shared, &mut place, reader, ticket, places);
        let value = fresh.unwrap_or(value);
        Held {
            board,
            place,
            reader,
            value,
        }
    }

    /// A note of what this reader has seen, for another thread to take in. It takes no memory.
    pub fn note(&mut self) -> Note<T>
        ensures note { (result.of ≡ self.old.of) × (result.list ≡ self.old.seen) }
        ensures same { self.new ≡ self.old }
    {
        let shared = &self.board.shared;
        Note::seated(shared.split_seat::<Tell>(&mut self.place))
    }

    /// Takes a note in: of the two lists one begins the other, and the reader has then seen the
    /// longer one. It takes no memory.
    pub fn meet(&mut self, note: Note<T>)
        requires { note.of ≡ self.old.of }
        ensures seen { self.new ≡ record self.old { seen = longer self.old.seen note.list } }
        ensures one_list { StartsWith self.new.seen self.old.seen × StartsWith self.new.seen note.list }
    {
        let shared = &self.board.shared;
        shared.join_seat::<Meet>(&mut self.place, note.into_place());
        shared.load::<Learn>(&mut self.place, 1);
    }

    /// A law: each state of the list may follow the one before it. It does nothing.
    pub fn known(&self)
        ensures { Chain T.follows self.now.seen }
    {
        let _ = &self.place;
    }
}

impl<T: Version + Drop> Held<T> {
    /// A value whose state is the last that this reader has seen.
    pub fn get(&self) -> &T
        ensures { EndsWith self.now.seen (T.state result.now) }
    {
        &self.value
    }

    /// The reader as it was before it entered, with what it has seen. It takes no memory, and
    /// doesn't wait.
    pub fn leave(self) -> Pass<T>
        ensures { result ≡ self }
    {
        let Held {
            board,
            place,
            reader,
            value,
        } = self;
        Pass {
            board,
            place,
            reader,
            value,
        }
    }

    /// A law: each state of the list may follow the one before it. It does nothing.
    pub fn known(&self)
        ensures { Chain T.follows self.now.seen }
    {
        let _ = &self.place;
    }
}
