//! Runs all control threads of a desk, each in a thread of its own.
ghost use Rattle.std.specs.Prelude.{◌≡◌, ◌+◌, ◌<◌, ◌≤◌, ℕ, List, [], ◌∷◌, All, IfOk, Some, Ok, length, map, slice_get};
ghost use Rattle.std.specs.Arc.{arc_value};
ghost use Rattle.atomic_table.specs.Seated.{TableId};
ghost use Rattle.log_turns.specs.LogRule.{HasTurns, IsSized, kept_of};
ghost use Rattle.set_model.specs.declared.script.SetDecl.{SetDecl};
ghost use Rattle.set_model.specs.Control.{Generation};
ghost use Rattle.control_desk.specs.Turns.{AreAll, Seated};
ghost use Rattle.control_desk.specs.Work.{HasDoneOf, IsEnd, MayDoSection, IsRun, SharesDesk, kept_by};

use crate::bell::Bell;
use crate::book::Book;
use crate::clerk::Clerk;
use crate::entry::Log;
use crate::work::submit_all;
use gen_publish::Control;
use log_turns::board::{Board, Place};
use log_turns::dealing::take_in;
use log_turns::turn::take_turn;
use set_model::{Memory, Sections};
use std::alloc::Global;
use std::sync::{Arc, Wait};
use std::thread;
use std::thread::Threads;

/// A control thread's part: it does its own section of these.
fn work<R: Wait, B: Bell>(
    rt: &R,
    clerk: Clerk,
    sections: &Sections,
    keep_going: bool,
    bell: &B,
) -> Result<Clerk, Memory>
    requires { MayDoSection sections.now clerk }
    ensures { IfOk result (HasDoneOf sections.now keep_going clerk) }
{
    let steps = sections.at(u64::from(clerk.number()) - 1);
    submit_all(rt, clerk, steps, keep_going, bell)
}

/// The control threads, if none of them ran out of memory.
fn all_done(alloc: Global, done: Vec<Result<Clerk, Memory>>) -> Result<Vec<Clerk>, Memory>
    ensures { IfOk result (λ v. done.items ≡ map Ok v.items) }
{
    let mut clerks = Vec::new(alloc);
    for one in done {
        clerks.push(one?)?;
    }
    Ok(clerks)
}

/// The first control thread's seat, after it took over the seats of the others.
fn gather(first: Clerk, others: Vec<Clerk>) -> (Arc<Board<Book>, Global>, Place<Book>)
    requires { All (SharesDesk first) others.items }
    ensures table { (result.1.table_id ≡ (arc_value result.0).shared.table_id) × IsSized result.1.table_id }
    ensures seat { HasTurns result.1.me.0.role × (result.1.me.0.stage ≡ 1) × (result.1.me.1 ≡ []) }
    ensures kept { kept_of result.1.me.0 ≡ kept_by first ∷ map kept_by others.items }
    ensures desk { (result.1.me.0.base ≡ first.base) × (result.1.me.0.threads ≡ first.threads) }
{
    let Clerk {
        board,
        mut place,
        ..
    } = first;
    for clerk in others {
        let Clerk { place: other, .. } = clerk;
        take_in(&board.shared, &mut place, other);
    }
    (board, place)
}

/// The control and the whole log, after all control threads are done.
fn close<R: Wait>(rt: &R, clerks: Vec<Clerk>) -> (Control, Log)
    requires { (first : Seated) × (slice_get clerks.items 0 ≡ Some first) × All (SharesDesk first) clerks.items }
    ensures { (first : Seated) → slice_get clerks.items 0 ≡ Some first → IsEnd first clerks.items result.0 result.1 }
{
    let mut others = clerks;
    let first = others.remove(0);
    let (board, mut place) = gather(first, others);
    let (_, book) = take_turn(rt, &board.shared, &mut place);
    book.known();
    book.control.known();
    let Book { control, log, .. } = book;
    (control, log)
}

/// Runs all control threads of a desk, each with its section, and waits for all of them. Returns the
/// control and the log. A stale transaction is submitted again. After `Memory` the run is over.
///
/// # Errors
///
/// `Memory` if memory runs out.
pub fn run_clerks<R: Threads + Wait + Sync, B: Bell>(
    rt: &R,
    alloc: Global,
    clerks: Vec<Clerk>,
    sections: &Sections,
    keep_going: bool,
    bell: &B,
) -> Result<(Control, Log), Memory>
    requires some { (0 < length clerks.items) × (length sections.now ≡ length clerks.items) }
    requires one_desk { (of : TableId) × (schema : List SetDecl) × (base : List Generation) × AreAll of schema base clerks.items }
    requires ready { All (MayDoSection sections.now) clerks.items }
    ensures { IfOk result (λ r. (first : Seated) → slice_get clerks.items 0 ≡ Some first → IsRun sections.now keep_going first.base r.0 r.1) }
{
    let run = |clerk: Clerk| -> Result<Clerk, Memory>
        requires { MayDoSection sections.now clerk }
        ensures { IfOk result (HasDoneOf sections.entry.now keep_going clerk) }
    { work(rt, clerk, sections, keep_going, bell) };
    let done = thread::map_vec(rt, clerks, &run)?;
    let clerks = all_done(alloc, done)?;
    Ok(close(rt, clerks))
}
