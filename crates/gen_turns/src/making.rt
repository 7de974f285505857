//! Makes a writer and its readers.
ghost use Rattle.std.specs.Prelude.{◌≡◌, ◌≤◌, ◌<◌, [], ◌∷◌, length, IfOk};
ghost use Rattle.std.specs.Arc.{arc_value};
ghost use Rattle.history_laws.specs.Histories.{EndsWith, Chain};
ghost use Rattle.history_laws.specs.States.{AllAre};
ghost use Rattle.gen_turns.specs.TurnViews.{AllNew, IsSized, IsLaid};
ghost use Rattle.gen_turns.specs.declared.board.Role.TheVariants.{Keeper};

use crate::Version;
use crate::board::{Board, Place, Places, Start};
use crate::kinds::Deal;
use crate::publisher::Writer;
use crate::readers::Pass;
use atomic_table::{Refused, Table};
use set_model::Memory;
use std::alloc::Global;
use std::snapshot::Snapshot;
use std::sync::Arc;

/// The writer, and one pass for each of 1 to 16 values, which have one state. It fails only if
/// memory runs out.
pub fn make<T: Version + Send + Drop>(
    alloc: Global,
    first: Vec<T>,
) -> Result<(Writer<T>, Vec<Pass<T>>), Memory>
    requires count { (0 < length first.items) × (length first.items ≤ 16) }
    requires one_state { (x : T.State) × AllAre T.state x first.items }
    ensures writer { IfOk result (λ r. (r.0.readers ≡ length first.items) × ((x : T.State) → AllAre T.state x first.items → r.0.made ≡ x ∷ [])) }
    ensures passes { IfOk result (λ r. (length r.1.items ≡ length first.items) × AllNew r.0.of r.0.made 0 r.1.items) }
{
    let readers = first.len();
    let about = Start {
        first: Snapshot::of(&first[0]),
        readers: readers as u64,
    };
    let entry = lay(alloc, readers)?;
    let made: Result<(Board<T>, Place<T>), Refused<Option<Places<T>>, Global>> = Table::new(
        alloc,
        &[0, 0],
        entry,
        &about,
    );
    let Ok((table, mut place)) = made else {
        return Err(Memory);
    };
    let board = Arc::new(alloc, table)?;
    let passes = deal(alloc, &board, &mut place, first)?;
    Ok((Writer::seated(board, place), passes))
}

// The table's entry at the start: a vector with an empty place for each reader.
fn lay<T: Drop>(alloc: Global, readers: usize) -> Result<Vec<Option<Places<T>>>, Memory>
    ensures { IfOk result (λ v. IsLaid readers v.items) }
{
    let mut places = Vec::new(alloc);
    for _ in 0..readers {
        places.push(None)?;
    }
    let mut entry = Vec::new(alloc);
    entry.push(Some(places))?;
    Ok(entry)
}

// The readers, each with its value.
fn deal<T: Version + Drop>(
    alloc: Global,
    board: &Arc<Board<T>, Global>,
    place: &mut Place<T>,
    first: Vec<T>,
) -> Result<Vec<Pass<T>>, Memory>
    requires table { (place.old.table_id ≡ (arc_value board.now).shared.table_id) × IsSized place.old.table_id }
    requires seat { (place.old.me.0.role ≡ Keeper (length first.items) 0) × (place.old.me.0.stage ≡ 1) × (place.old.me.1 ≡ []) × Chain T.follows place.old.me.0.seen }
    requires values { (x : T.State) × AllAre T.state x first.items × EndsWith place.old.me.0.entered x }
    ensures seat { IfOk result (λ v. (place.new.table_id ≡ place.old.table_id) × (place.new.me ≡ (record place.old.me.0 { role = Keeper (length first.items) (length first.items) }, []))) }
    ensures passes { IfOk result (λ v. (length v.items ≡ length first.items) × AllNew place.old.table_id place.old.me.0.seen 0 v.items) }
{
    let mut passes = Vec::new(alloc);
    for value in first {
        let reader = passes.len();
        let seat = board.shared.split_seat::<Deal>(place);
        passes.push(Pass::seated(Arc::try_clone(board)?, seat, reader, value))?;
    }
    Ok(passes)
}
