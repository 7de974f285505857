//! Makes the control threads of a desk.
ghost use Rattle.std.specs.Prelude.{◌≡◌, ◌+◌, ◌*◌, ◌<◌, ◌≤◌, ◌^◌, [], take, All, IfOk, length};
ghost use Rattle.std.specs.Arc.{arc_value};
ghost use Rattle.atomic_table.specs.Seated.{TableId};
ghost use Rattle.gen_publish.specs.Publish.{Grown};
ghost use Rattle.log_turns.specs.LogRule.{IsSized, opening_view};
ghost use Rattle.control_desk.specs.Books.{IsClosed};
ghost use Rattle.control_desk.specs.Woven.{HasSeen};
ghost use Rattle.control_desk.specs.Turns.{IsOpened};

use crate::book::Book;
use crate::clerk::Clerk;
use atomic_table::{Refused, Table};
use gen_publish::Control;
use log_turns::board::{Board, Place, Start};
use log_turns::dealing::give_seat;
use set_model::Memory;
use std::alloc::Global;
use std::snapshot::Snapshot;
use std::sync::Arc;

/// The control threads of a desk, numbered from 1, from the seat that represents them all.
fn deal(
    alloc: Global,
    board: &Arc<Board<Book>, Global>,
    place: &mut Place<Book>,
    clerks: u32,
    newest: u64,
) -> Result<Vec<Clerk>, Memory>
    requires table { (place.old.table_id ≡ (arc_value board.now).shared.table_id) × IsSized place.old.table_id }
    requires seat { place.old.me ≡ (opening_view place.old.me.0.left clerks place.old.me.0.base, []) }
    requires newest { HasSeen place.old.me.0.base [] newest }
    requires grown { Grown (arc_value board.now).shared.key.first.value.control.schema 0 place.old.me.0.base }
    ensures { IfOk result (λ v. IsOpened place.old.table_id (arc_value board.now).shared.key.first.value.control.schema place.old.me.0.base clerks place.old.me.0.left v.items) }
{
    let mut dealt = Vec::new(alloc);
    for given in 0..clerks {
        let seat = give_seat(&board.shared, place);
        dealt.push(Clerk::seated(Arc::try_clone(board)?, seat, given + 1, newest))?;
    }
    Ok(dealt)
}

/// The control threads of a desk, numbered from 1. Each may submit so many transactions to a control.
/// None has had a turn.
///
/// # Errors
///
/// `Memory` if memory runs out. The control is dropped.
pub fn open_desk(
    alloc: Global,
    control: Control,
    clerks: u32,
    each: u64,
) -> Result<Vec<Clerk>, Memory>
    requires count { (0 < clerks) × (clerks ≤ 16) }
    requires closed { IsClosed control }
    requires room { control.work.base.number + clerks * each < 2 ^ 63 }
    ensures { IfOk result (λ v. (of : TableId) × IsOpened of control.schema control.committed clerks each v.items) }
{
    let newest = control.number();
    let book = Book::new(alloc, control);
    let about = Start {
        first: Snapshot::of(&book),
        clerks: u64::from(clerks),
        each,
    };
    let mut entry = Vec::new(alloc);
    entry.push(Some(book))?;
    let made: Result<(Board<Book>, Place<Book>), Refused<Option<Book>, Global>> = Table::new(
        alloc,
        &[0, 0],
        entry,
        &about,
    );
    let Ok((table, mut place)) = made else {
        return Err(Memory);
    };
    let board = Arc::new(alloc, table)?;
    deal(alloc, &board, &mut place, clerks, newest)
}
