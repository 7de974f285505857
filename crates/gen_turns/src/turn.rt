// Waiting for a turn, which readers and the writer do in the same way.
ghost use Rattle.std.specs.Prelude.{◌≡◌, [], ◌∷◌, List, None};
ghost use Rattle.history_laws.specs.Histories.{StartsWith, Chain};
ghost use Rattle.gen_turns.specs.TurnRule.{HasTurns};
ghost use Rattle.gen_turns.specs.TurnSteps.{Finds};
ghost use Rattle.gen_turns.specs.TurnViews.{IsSized};

use crate::Version;
use crate::board::{Place, Places, SeatView, Start, Turned};
use crate::kinds::{Draw, Look};
use atomic_table::Shared;
use std::sync::Wait;
use std::thread;

pub(crate) type Top<T> = Shared<
    Option<Places<T>>,
    SeatView<T, <T as Version>::State>,
    Start<T>,
    Turned<T>,
>;

// Draws a ticket, and waits until it is served. Then the seat has the vector.
pub(crate) fn take_turn<T: Version + Drop, R: Wait>(
    rt: &R,
    top: &Top<T>,
    place: &mut Place<T>,
) -> (u64, Places<T>)
    requires table { (place.old.table_id ≡ top.now.table_id) × IsSized place.old.table_id }
    requires seat { HasTurns place.old.me.0.role × (place.old.me.0.stage ≡ 1) × (place.old.me.1 ≡ []) }
    ensures table { place.new.table_id ≡ place.old.table_id }
    ensures seat { (whole : List T.State) × (place.new.me ≡ (record place.old.me.0 { stage = 3; ticket = result.0; whole = whole; took = result.1.items }, (0, None) ∷ [])) × StartsWith whole place.old.me.0.seen × Chain T.follows whole × Finds T.state whole place.old.me.0.seen place.old.me.0.entered result.1.items place.old.me.0.role }
{
    let ticket = top.fetch_add::<Draw>(place, 0, 1);
    for _ in rt.forever() {
        if top.load::<Look>(place, 1) == ticket {
            let places = top.exchange(place, 0, None).unwrap();
            return (ticket, places);
        }
        thread::yield_now();
    }
    unreachable!()
}
