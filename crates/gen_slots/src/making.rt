//! Makes a writer and its readers.
ghost use Rattle.std.specs.Prelude.{◌≡◌, ◌+◌, ◌*◌, ◌^◌, ◌≤◌, ◌<◌, [], ◌∷◌, ◌++◌, length, replicate, IfOk, OnOk, Some, None};
ghost use Rattle.std.specs.Arc.{arc_value};
ghost use Rattle.history_laws.specs.Histories.{Chain};
ghost use Rattle.history_laws.specs.States.{AllAre};
ghost use Rattle.gen_slots.specs.SlotViews.{AllNew, IsSized, laid};
ghost use Rattle.gen_slots.specs.declared.board.Plan.{Plan};
ghost use Rattle.gen_slots.specs.declared.board.Role.TheVariants.{Keeper};

use crate::Version;
use crate::board::{Board, Place, Start};
use crate::kinds::Deal;
use crate::publisher::Writer;
use crate::readers::Pass;
use atomic_table::{Refused, Table};
use set_model::Memory;
use std::alloc::Global;
use std::snapshot::Snapshot;
use std::sync::Arc;

/// The writer, and one pass for each of 1 to 16 values, which have one state. It fails only if
/// memory runs out.
pub fn make<T: Version + Send + Drop>(
    alloc: Global,
    first: Vec<T>,
) -> Result<(Writer<T>, Vec<Pass<T>>), Memory>
    requires count { (0 < length first.items) × (length first.items ≤ 16) }
    requires one_state { (x : T.State) × AllAre T.state x first.items }
    ensures writer { IfOk result (λ r. (r.0.readers ≡ length first.items) × (r.0.start ≡ 0) × ((x : T.State) → AllAre T.state x first.items → r.0.made ≡ x ∷ [])) }
    ensures slots { IfOk result (λ r. (r.0.published ≡ 0) × ((x : T.State) → AllAre T.state x first.items → r.0.states ≡ Some x ∷ replicate 17 None)) }
    ensures passes { IfOk result (λ r. (length r.1.items ≡ length first.items) × AllNew r.0.of r.0.made 0 r.1.items) }
{
    make_at(alloc, first, 0)
}

/// As `make`, with every count of enters and leaves at `start`. It fails only if memory runs out.
pub fn make_at<T: Version + Send + Drop>(
    alloc: Global,
    first: Vec<T>,
    start: u64,
) -> Result<(Writer<T>, Vec<Pass<T>>), Memory>
    requires count { (0 < length first.items) × (length first.items ≤ 16) }
    requires one_state { (x : T.State) × AllAre T.state x first.items }
    requires start { start < 2 ^ 56 }
    ensures writer { IfOk result (λ r. (r.0.readers ≡ length first.items) × (r.0.start ≡ start) × ((x : T.State) → AllAre T.state x first.items → r.0.made ≡ x ∷ [])) }
    ensures slots { IfOk result (λ r. (r.0.published ≡ 0) × ((x : T.State) → AllAre T.state x first.items → r.0.states ≡ Some x ∷ replicate 17 None)) }
    ensures passes { IfOk result (λ r. (length r.1.items ≡ length first.items) × AllNew r.0.of r.0.made 0 r.1.items) }
{
    let readers = first.len();
    let about = Start {
        first: Snapshot::of(&first[0]),
        readers: readers as u64,
        count: start,
    };
    let words = Vec::from_elem(alloc, 256 * start, readers + 3)?;
    let berths = lay(alloc, first)?;
    let made: Result<(Board<T>, Place<T>), Refused<Option<T>, Global>> = Table::new(
        alloc,
        words.as_slice(),
        berths,
        &about,
    );
    let Ok((table, mut place)) = made else {
        return Err(Memory);
    };
    let board = Arc::new(alloc, table)?;
    let passes = deal(alloc, &board, &mut place, readers)?;
    Ok((Writer::seated(board, place, readers, start), passes))
}

// The berths at the start, in the order of the readers. Those of slot 0 have the values.
fn lay<T: Drop>(alloc: Global, first: Vec<T>) -> Result<Vec<Option<T>>, Memory>
    ensures { IfOk result (λ v. v.items ≡ laid first.items) }
{
    let mut berths = Vec::new(alloc);
    for value in first {
        lay_one(&mut berths, value)?;
    }
    Ok(berths)
}

// The berths of one reader.
fn lay_one<T: Drop>(berths: &mut Vec<Option<T>>, value: T) -> Result<(), Memory>
    ensures { OnOk result (berths.new.items ≡ berths.old.items ++ Some value ∷ replicate 31 None) }
{
    berths.push(Some(value))?;
    for _ in 0..31u32 {
        berths.push(None)?;
    }
    Ok(())
}

// The readers.
fn deal<T: Version + Drop>(
    alloc: Global,
    board: &Arc<Board<T>, Global>,
    place: &mut Place<T>,
    readers: usize,
) -> Result<Vec<Pass<T>>, Memory>
    requires table { (place.old.table_id ≡ (arc_value board.now).shared.table_id) × IsSized place.old.table_id × (readers ≤ 16) × (place.old.me.1 ≡ []) }
    requires plan { (p : Plan T.State) × (place.old.me.0.role ≡ Keeper p) × (p.given ≡ 0) × (p.readers ≡ readers) }
    requires chain { Chain T.follows place.old.me.0.seen }
    ensures seat { IfOk result (λ v. (place.new.table_id ≡ place.old.table_id) × (place.new.me.1 ≡ []) × (place.new.me.0.seen ≡ place.old.me.0.seen) × ((p : Plan T.State) → place.old.me.0.role ≡ Keeper p → place.new.me.0.role ≡ Keeper (record p { given = readers }))) }
    ensures passes { IfOk result (λ v. (length v.items ≡ readers) × AllNew place.old.table_id place.old.me.0.seen 0 v.items) }
{
    let mut passes = Vec::new(alloc);
    for reader in 0..readers {
        let seat = board.shared.split_seat::<Deal>(place);
        passes.push(Pass::seated(Arc::try_clone(board)?, seat, reader))?;
    }
    Ok(passes)
}
