//! Makes the seats at a table, and takes them in after their control threads are done.
ghost use Rattle.std.specs.Prelude.{◌≡◌, ◌<◌, ℕ, []};
ghost use Rattle.log_turns.specs.declared.Role.TheVariants.{Opener};
ghost use Rattle.log_turns.specs.LogRule.{HasTurns, IsSized};
ghost use Rattle.log_turns.specs.LogSteps.{given_one, next_clerk, gathered};

use crate::Logged;
use crate::board::{Deal, Gather, Place, Top};

/// The seat of the next control thread.
pub fn give_seat<T: Logged + Drop>(top: &Top<T>, place: &mut Place<T>) -> Place<T>
    requires table { (place.old.table_id ≡ top.now.table_id) × IsSized place.old.table_id }
    requires seat { (given : ℕ) × (place.old.me.0.role ≡ Opener given) × (given < place.old.me.0.threads) }
    ensures table { (place.new.table_id ≡ place.old.table_id) × (result.table_id ≡ place.old.table_id) }
    ensures seats { (place.new.me ≡ (given_one place.old.me.0, place.old.me.1)) × (result.me ≡ (next_clerk place.old.me.0, [])) }
{
    top.split_seat::<Deal>(place)
}

/// One seat takes in another, and keeps what the other's control threads had seen.
pub fn take_in<T: Logged + Drop>(top: &Top<T>, place: &mut Place<T>, other: Place<T>)
    requires table { (place.old.table_id ≡ top.now.table_id) × (other.table_id ≡ top.now.table_id) × IsSized place.old.table_id }
    requires taker { HasTurns place.old.me.0.role × (place.old.me.0.stage ≡ 1) }
    requires other { HasTurns other.me.0.role × (other.me.0.stage ≡ 1) × (other.me.1 ≡ []) }
    ensures table { place.new.table_id ≡ place.old.table_id }
    ensures seat { place.new.me ≡ (gathered place.old.me.0 other.me.0, place.old.me.1) }
{
    top.join_seat::<Gather>(place, other);
}
