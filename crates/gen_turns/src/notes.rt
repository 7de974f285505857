//! A note from one thread to another.
ghost use Rattle.std.specs.Prelude.{◌≡◌, []};
ghost use Rattle.history_laws.specs.Histories.{Chain};
ghost use Rattle.gen_turns.specs.declared.board.Role.TheVariants.{Idle};

use crate::Version;
use crate::board::Place;
use std::marker::Model;

/// The list of states that the thread that made the note had seen.
#[derive(Drop)]
pub struct Note<T: Version + Drop> {
    place: Place<T>,
}

impl<T: Version + Drop> Model for Note<T> {
    ghost use Rattle.std.specs.Prelude.{◌≡◌, []};
    ghost use Rattle.history_laws.specs.Histories.{Chain};
    ghost use Rattle.gen_turns.specs.TurnViews.{Telling};
    ghost use Rattle.gen_turns.specs.declared.board.Role.TheVariants.{Idle};

    ghost Value = { Telling T.State };

    ghost view = { λ n. record { of = n.place.table_id; list = n.place.me.0.seen } };

    ghost invariant = { λ n. (n.place.me.0.role ≡ Idle) × (n.place.me.1 ≡ []) × Chain T.follows n.place.me.0.seen };
}

impl<T: Version + Drop> Note<T> {
    pub(crate) fn seated(place: Place<T>) -> Note<T>
        requires { (place.me.0.role ≡ Idle) × (place.me.1 ≡ []) × Chain T.follows place.me.0.seen }
        ensures { (result.of ≡ place.table_id) × (result.list ≡ place.me.0.seen) }
    {
        Note { place }
    }

    pub(crate) fn into_place(self) -> Place<T>
        ensures table { result.table_id ≡ self.of }
        ensures seat { (result.me.0.role ≡ Idle) × (result.me.0.seen ≡ self.list) × (result.me.1 ≡ []) }
    {
        let Note { place } = self;
        place
    }

    /// A law: each state of the list may follow the one before it. It does nothing.
    pub fn known(&self)
        ensures { Chain T.follows self.now.list }
    {
        let _ = &self.place;
    }
}
