//! The writer, which waits for its turn.
ghost use Rattle.std.specs.Prelude.{◌≡◌, ◌<◌, [], ◌∷◌, ◌++◌, None, length};
ghost use Rattle.std.specs.Arc.{arc_value};
ghost use Rattle.history_laws.specs.Histories.{StartsWith, EndsWith, Chain};
ghost use Rattle.history_laws.specs.States.{AllShow};
ghost use Rattle.gen_turns.specs.TurnRule.{AreLast};
ghost use Rattle.gen_turns.specs.TurnViews.{IsSized, IsWriterRole, publishing, readers_of};

use crate::Version;
use crate::board::{Board, Place, Places};
use crate::kinds::{EndPublish, Learn, Meet, Tell};
use crate::notes::Note;
use crate::turn::{Top, take_turn};
use std::alloc::Global;
use std::marker::Model;
use std::mem;
use std::sync::{Arc, Wait};

/// The writer. Each `make` makes one.
#[derive(Drop)]
pub struct Writer<T: Version + Drop> {
    board: Arc<Board<T>, Global>,
    place: Place<T>,
}

impl<T: Version + Drop> Model for Writer<T> {
    ghost use Rattle.std.specs.Prelude.{◌≡◌, []};
    ghost use Rattle.std.specs.Arc.{arc_value};
    ghost use Rattle.history_laws.specs.Histories.{Chain};
    ghost use Rattle.gen_turns.specs.TurnViews.{Publishing, publishing, IsSized, IsWriterRole};

    ghost Value = { Publishing T T.State };

    ghost view = { λ w. publishing w.place.table_id w.place.me.0 };

    ghost invariant = { λ w. (w.place.table_id ≡ (arc_value w.board).shared.table_id) × IsSized w.place.table_id × IsWriterRole w.place.me.0.role × (w.place.me.0.stage ≡ 1) × (w.place.me.1 ≡ []) × Chain T.follows w.place.me.0.seen };
}

// Gives back the values as the vector, and lets the next ticket be served.
fn end_turn<T: Version + Drop>(top: &Top<T>, place: &mut Place<T>, ticket: u64, values: Places<T>)
    requires table { (place.old.table_id ≡ top.now.table_id) × IsSized place.old.table_id }
    requires seat { IsWriterRole place.old.me.0.role × (place.old.me.0.stage ≡ 3) × (place.old.me.0.ticket ≡ ticket) × (place.old.me.1 ≡ (0, None) ∷ []) }
    requires values { (length values.items ≡ readers_of place.old.me.0.role) × ((x : T.State) × AllShow T.state x values.items) }
    requires next { (x y : T.State) → AllShow T.state x values.items → EndsWith place.old.me.0.seen y → T.follows y x }
    ensures table { place.new.table_id ≡ place.old.table_id }
    ensures chain { Chain T.follows place.new.me.0.seen }
    ensures seat { (x : T.State) → AllShow T.state x values.items → place.new.me ≡ (record place.old.me.0 { stage = 1; seen = place.old.me.0.seen ++ x ∷ [] }, []) }
{
    top.exchange(place, 0, Some(values));
    top.store::<EndPublish>(place, 1, ticket.wrapping_add(1));
}

impl<T: Version + Drop> Writer<T> {
    pub(crate) fn seated(board: Arc<Board<T>, Global>, place: Place<T>) -> Writer<T>
        requires table { (place.table_id ≡ (arc_value board).shared.table_id) × IsSized place.table_id }
        requires seat { IsWriterRole place.me.0.role × (place.me.0.stage ≡ 1) × (place.me.1 ≡ []) × Chain T.follows place.me.0.seen }
        ensures { result ≡ publishing place.table_id place.me.0 }
    {
        Writer { board, place }
    }

    /// Publishes the state of these values, one for each reader, at the writer's turn. The call
    /// waits for this turn, and takes no memory.
    ///
    /// Afterwards the vector has what was in the places. For a reader that entered since the last
    /// publication this is nothing. For any other reader it is its value of the last state.
    pub fn publish<R: Wait>(&mut self, rt: &R, berths: &mut Vec<Option<T>>)
        requires values { (length berths.old.items ≡ self.old.readers) × ((x : T.State) × AllShow T.state x berths.old.items) }
        requires next { (x y : T.State) → AllShow T.state x berths.old.items → EndsWith self.old.made y → T.follows y x }
        ensures made { (x : T.State) → AllShow T.state x berths.old.items → self.new ≡ record self.old { made = self.old.made ++ x ∷ []; found = berths.new.items } }
        ensures stored { (length berths.new.items ≡ self.old.readers) × AreLast T.state self.old.made berths.new.items }
    {
        let top = &self.board.shared;
        let (ticket, places) = take_turn(rt, top, &mut self.place);
        let values = mem::replace(berths, places);
        end_turn(top, &mut self.place, ticket, values);
    }

    /// A note of what was published, for a reader to take in. It takes no memory.
    pub fn note(&mut self) -> Note<T>
        ensures note { (result.of ≡ self.old.of) × (result.list ≡ self.old.made) }
        ensures same { self.new ≡ self.old }
    {
        let shared = &self.board.shared;
        Note::seated(shared.split_seat::<Tell>(&mut self.place))
    }

    /// Takes a note in: its list begins what was published. It takes no memory.
    pub fn hear(&mut self, note: Note<T>)
        requires { note.of ≡ self.old.of }
        ensures same { self.new ≡ self.old }
        ensures begins { StartsWith self.new.made note.list }
    {
        let shared = &self.board.shared;
        shared.join_seat::<Meet>(&mut self.place, note.into_place());
        shared.load::<Learn>(&mut self.place, 1);
    }

    /// A law: each published state may follow the one before it. It does nothing.
    pub fn known(&self)
        ensures { Chain T.follows self.now.made }
    {
        let _ = &self.place;
    }
}
