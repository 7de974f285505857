//! A section: the control's steps beside the packets.
ghost use Rattle.std.specs.Prelude.{◌≡◌, ◌+◌, ◌*◌, ◌<◌, ◌≤◌, ◌^◌, ℕ, length, map, All, IfOk, Some, slice_get};
ghost use denote.Param.Send.{IsSync};
ghost use Rattle.set_model.specs.Runnable.{IsFitting, IsRunnableStep};
ghost use Rattle.gen_publish.specs.Publish.{ReaderView};
ghost use Rattle.packet_pool.specs.Work.{AllReady, AllWorked, AreAnswers, Serves, IsFresh, batches_of, lines_of};
ghost use Rattle.packet_pool.specs.Section.{IsSection, by_thread};
ghost use Rattle.packet_pool.specs.Running.{HasNumbers, Ran};

use crate::counter::{Counter, count_drawn, open};
use crate::filing::file;
use crate::gate::Gate;
use crate::judge::Judge;
use crate::readers::{hand_out, meet_all, take_back};
use crate::steps::run_steps;
use crate::traffic::Traffic;
use crate::worker::{Worker, work_all};
use gen_publish::{Control, Reader};
use set_model::{Events, Line, Lines, Memory, Packets, Steps};
use std::alloc::Global;
use std::mem;
use std::thread::{Threads, join_mut};

/// What a section reports: the events of its steps, and the lines of its packets in their order.
#[derive(Drop)]
pub struct SectionResult {
    /// The events of its steps.
    pub events: Events,
    /// The line of each packet.
    pub lines: Lines,
}

/// Does the steps beside the workers. It does one after the other if there are no packets or no steps.
fn beside<R: Threads + Sync, J: Judge, G: Gate>(
    rt: &R,
    alloc: Global,
    control: &mut Control,
    steps: &Steps,
    keep_going: bool,
    counter: &Counter,
    workers: Vec<Worker>,
    traffic: &Traffic<'_, J, G>,
) -> Result<(Events, Vec<Worker>), Memory>
    requires steps { All (IsRunnableStep control.old.schema) steps.now }
    requires numbers { HasNumbers control.old steps.now }
    requires workers { All (Serves (J.serves traffic.now.judge.now) traffic.now.packets.now) workers.items }
    requires fresh { All (IsFresh (batches_of (length traffic.now.packets.now)) counter.now.shared.table_id) workers.items }
    requires table { counter.now.shared.table_id.words ≡ 1 }
    ensures steps { IfOk result (λ r. Ran keep_going steps.now control.old control.new r.0) }
    ensures workers { IfOk result (λ r. AllWorked (J.verdict traffic.now.judge.now) traffic.now.packets.now traffic.now.first workers.items r.1.items) }
{
    if steps.len() == 0 || workers.is_empty() {
        let events = run_steps(alloc, control, steps, keep_going, traffic.gate)?;
        let workers = work_all(rt, alloc, counter, workers, traffic)?;
        return Ok((events, workers));
    }
    let mut workers = workers;
    let (events, workers) = join_mut(
        rt,
        &mut || -> Result<Events, Memory>
            requires { All (IsRunnableStep control.now.schema) steps.now × HasNumbers control.now steps.now }
            ensures { IfOk result (λ events. Ran keep_going steps.entry.now control.entry.now control.exit.now events) }
        { run_steps(alloc, control, steps, keep_going, traffic.gate) },
        &mut || -> Result<Vec<Worker>, Memory>
            requires { IsSync R.row × All (Serves (J.serves traffic.now.judge.now) traffic.now.packets.now) workers.items × All (IsFresh (batches_of (length traffic.now.packets.now)) counter.now.shared.table_id) workers.items × (counter.now.shared.table_id.words ≡ 1) }
            ensures { IfOk result (λ v. AllWorked (J.verdict traffic.entry.now.judge.now) traffic.entry.now.packets.now traffic.entry.now.first workers.entry.items v.items) }
        {
            let workers = mem::replace(&mut workers, Vec::new(alloc));
            work_all(rt, alloc, counter, workers, traffic)
        },
    );
    Ok((events?, workers?))
}

/// The events of the steps, and each thread's lines.
fn answer_all<R: Threads + Sync, J: Judge, G: Gate>(
    rt: &R,
    alloc: Global,
    control: &mut Control,
    steps: &Steps,
    keep_going: bool,
    readers: &mut Vec<Option<Reader>>,
    traffic: &Traffic<'_, J, G>,
) -> Result<(Events, Vec<Vec<Line>>), Memory>
    requires steps { All (IsRunnableStep control.old.schema) steps.now }
    requires numbers { HasNumbers control.old steps.now }
    requires readers { (0 < length readers.old.items) × (length readers.old.items ≤ 16) × AllReady control.old readers.old.items }
    requires judge { J.serves traffic.now.judge.now control.old.schema }
    requires packets { All (IsFitting control.old.schema) traffic.now.packets.now }
    ensures steps { IfOk result (λ r. Ran keep_going steps.now control.old control.new r.0) }
    ensures lists { IfOk result (λ r. AreAnswers (J.verdict traffic.now.judge.now) traffic.now.packets.now traffic.now.first (length readers.old.items) (length control.old.committed) control.new.committed (map (λ v. v.items) r.1.items)) }
    ensures moves { IfOk result (λ r. (i : ℕ) (d e : ReaderView) → slice_get readers.old.items i ≡ Some (Some d) → slice_get readers.new.items i ≡ Some (Some e) → e.moves ≡ d.moves + 2 * length (lines_of (map (λ v. v.items) r.1.items) i)) }
    ensures ready { IfOk result (λ _. (length readers.new.items ≡ length readers.old.items) × AllReady control.new readers.new.items) }
{
    let batches = traffic.batches();
    let count = (readers.len() as u64).min(batches);
    let (counter, mut place) = open(alloc, batches, count)?;
    let workers = hand_out(
        alloc,
        &counter,
        &mut place,
        readers,
        batches,
        count as usize,
    )?;
    let (events, workers) = beside(
        rt, alloc, control, steps, keep_going, &counter, workers, traffic,
    )?;
    let lists = take_back(alloc, &counter, &mut place, readers, workers)?;
    count_drawn(&counter, &mut place);
    meet_all(control, readers);
    Ok((events, lists))
}

/// Runs the steps of a section beside its packets, which are numbered from `first` on. The reader at
/// place i belongs to thread i. It starts threads only if more than one of them has work. After
/// `Memory` the run is over.
///
/// # Errors
///
/// `Memory` if memory runs out.
pub fn run_section<R: Threads + Sync, J: Judge, G: Gate>(
    rt: &R,
    alloc: Global,
    control: &mut Control,
    steps: &Steps,
    keep_going: bool,
    readers: &mut Vec<Option<Reader>>,
    packets: &Packets,
    first: u64,
    judge: &J,
    gate: &G,
) -> Result<SectionResult, Memory>
    requires steps { All (IsRunnableStep control.old.schema) steps.now }
    requires numbers { HasNumbers control.old steps.now }
    requires readers { (0 < length readers.old.items) × (length readers.old.items ≤ 16) × AllReady control.old readers.old.items }
    requires judge { J.serves judge.now control.old.schema }
    requires packets { All (IsFitting control.old.schema) packets.now }
    requires room { first + length packets.now < 2 ^ 64 }
    ensures steps { IfOk result (λ r. Ran keep_going steps.now control.old control.new r.events) }
    ensures lines { IfOk result (λ r. IsSection (J.verdict judge.now) packets.now first (length readers.old.items) (length control.old.committed) control.new.committed r.lines) }
    ensures moves { IfOk result (λ r. (i : ℕ) (d e : ReaderView) → slice_get readers.old.items i ≡ Some (Some d) → slice_get readers.new.items i ≡ Some (Some e) → e.moves ≡ d.moves + 2 * by_thread i r.lines) }
    ensures ready { IfOk result (λ r. (length readers.new.items ≡ length readers.old.items) × AllReady control.new readers.new.items) }
{
    let traffic = Traffic {
        packets,
        first,
        judge,
        gate,
    };
    let (events, lists) = answer_all(rt, alloc, control, steps, keep_going, readers, &traffic)?;
    let lines = file(alloc, lists.as_slice(), first, packets.len())?;
    Ok(SectionResult {
        events,
        lines: Lines::from_vec(lines),
    })
}
