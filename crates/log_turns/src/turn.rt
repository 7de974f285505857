//! A turn: a seat draws a ticket, waits for the value, and gives it back with what it logged.
ghost use Rattle.std.specs.Prelude.{◌≡◌, ℕ, ◌-◌, ◌+◌, ◌≤◌, [], ◌∷◌, length, None, Some};
ghost use Rattle.log_turns.specs.declared.Role.TheVariants.{Clerk};
ghost use Rattle.log_turns.specs.LogRule.{HasTurns, IsClerk, IsSized, most};
ghost use Rattle.log_turns.specs.LogSteps.{Finds, MayGive};

use crate::Logged;
use crate::board::{Done, Draw, Look, Place, Top};
use std::sync::Wait;
use std::thread::{self, Parker};
use std::time::Duration;

/// How long a thread sleeps between two looks, for each turn before its own but one, in microseconds.
const PAUSE: u64 = 50;

/// The most turns for which a pause grows.
const LONGEST: u64 = 16;

/// Lets other threads work before the next look, if so many turns come before its own. The next in line gives
/// its time slice away and looks at once. Each thread after it sleeps; the later its turn is, the longer.
fn pause<R: Wait>(rt: &R, parker: &Parker, turns: u64) {
    if turns <= 1 {
        thread::yield_now();
    } else {
        parker.park_timeout(rt, Duration::from_micros(PAUSE * (turns - 1).min(LONGEST)));
    }
}

/// Draws a ticket, and waits until it is served. Then the seat has the value. Returns the ticket and the
/// value.
pub fn take_turn<T: Logged + Drop, R: Wait>(rt: &R, top: &Top<T>, place: &mut Place<T>) -> (u64, T)
    requires table { (place.old.table_id ≡ top.now.table_id) × IsSized place.old.table_id }
    requires seat { HasTurns place.old.me.0.role × (place.old.me.0.stage ≡ 1) × (place.old.me.1 ≡ []) }
    ensures table { place.new.table_id ≡ place.old.table_id }
    ensures seat { place.new.me ≡ (record place.old.me.0 { stage = 3; ticket = result.0; took = Some result.1 }, (0, None) ∷ []) }
    ensures finds { Finds T.log T.base T.number T.clerk most place.old.me.0 result.1 }
{
    let ticket = top.fetch_add::<Draw>(place, 0, 1);
    // Nobody wakes this thread: it sleeps for its time.
    let parker = Parker::new();
    for _ in rt.forever() {
        let served = top.load::<Look>(place, 1);
        if served == ticket {
            let value = top.exchange(place, 0, None).unwrap();
            return (ticket, value);
        }
        pause(rt, &parker, ticket.wrapping_sub(served));
    }
    unreachable!()
}

/// Gives the value back with what was logged, and serves the next ticket.
pub fn end_turn<T: Logged + Drop>(top: &Top<T>, place: &mut Place<T>, ticket: u64, value: T)
    requires table { (place.old.table_id ≡ top.now.table_id) × IsSized place.old.table_id }
    requires seat { IsClerk place.old.me.0.role × (place.old.me.0.stage ≡ 3) × (place.old.me.0.ticket ≡ ticket) × (place.old.me.1 ≡ (0, None) ∷ []) }
    requires value { (c : ℕ) → place.old.me.0.role ≡ Clerk c → MayGive T.log T.base T.number T.clerk c place.old.me.0 value }
    ensures table { place.new.table_id ≡ place.old.table_id }
    ensures seat { (took : T) → place.old.me.0.took ≡ Some took → place.new.me ≡ (record place.old.me.0 { stage = 1; seen = T.log value; left = place.old.me.0.left - (length (T.log value) - length (T.log took)) }, []) }
{
    top.exchange(place, 0, Some(value));
    top.store::<Done>(place, 1, ticket.wrapping_add(1));
}
