//! The workers of a section.
ghost use Rattle.std.specs.Prelude.{◌≡◌, length, All, IfOk, Ok, map};
ghost use Rattle.packet_pool.specs.Work.{batches_of, IsFresh, Serves, HasWorked, AllWorked};

use crate::counter::{Counter, Place};
use crate::gate::Gate;
use crate::judge::Judge;
use crate::traffic::Traffic;
use gen_publish::Reader;
use set_model::{Line, Memory};
use std::alloc::Global;
use std::thread;
use std::thread::Threads;

/// A worker of a section: its thread's number, its reader, its place at the counter, and the lines that it has made.
#[derive(Drop)]
pub struct Worker {
    /// Its thread's number, from 0.
    pub thread: u32,
    /// Its reader, which holds no generation.
    pub reader: Reader,
    /// Its seat at the counter.
    pub place: Place,
    /// The lines that it has made, in their order.
    pub lines: Vec<Line>,
}

/// The workers, if none of them ran out of memory.
fn all_done(alloc: Global, done: Vec<Result<Worker, Memory>>) -> Result<Vec<Worker>, Memory>
    ensures { IfOk result (λ v. done.items ≡ map Ok v.items) }
{
    let mut workers = Vec::new(alloc);
    for one in done {
        workers.push(one?)?;
    }
    Ok(workers)
}

/// All workers' parts, each in a thread of its own if one can be started.
pub(crate) fn work_all<R: Threads + Sync, J: Judge, G: Gate>(
    rt: &R,
    alloc: Global,
    counter: &Counter,
    workers: Vec<Worker>,
    traffic: &Traffic<'_, J, G>,
) -> Result<Vec<Worker>, Memory>
    requires workers { All (Serves (J.serves traffic.now.judge.now) traffic.now.packets.now) workers.items }
    requires fresh { All (IsFresh (batches_of (length traffic.now.packets.now)) counter.now.shared.table_id) workers.items }
    requires table { counter.now.shared.table_id.words ≡ 1 }
    ensures { IfOk result (λ v. AllWorked (J.verdict traffic.now.judge.now) traffic.now.packets.now traffic.now.first workers.items v.items) }
{
    let run = |worker: Worker| -> Result<Worker, Memory>
        requires worker { Serves (J.serves traffic.now.judge.now) traffic.now.packets.now worker }
        requires fresh { IsFresh (batches_of (length traffic.now.packets.now)) counter.now.shared.table_id worker }
        requires table { counter.now.shared.table_id.words ≡ 1 }
        ensures { IfOk result (λ w. HasWorked (J.verdict traffic.entry.now.judge.now) traffic.entry.now.packets.now traffic.entry.now.first worker w) }
    { traffic.work(counter, worker) };
    let done = thread::map_vec(rt, workers, &run)?;
    all_done(alloc, done)
}
