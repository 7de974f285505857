//! Hands readers to workers and takes them back.
ghost use Rattle.std.specs.Prelude.{[], ◌≡◌, ◌+◌, ◌<◌, ◌≤◌, ◌^◌, ◌++◌, ℕ, length, map, IfOk, Some, slice_get};
ghost use Rattle.history_laws.specs.Histories.{StartsWith};
ghost use Rattle.gen_publish.specs.Publish.{ReaderView};
ghost use Rattle.packet_pool.specs.Draws.{hand};
ghost use Rattle.packet_pool.specs.Work.{AreDealt, AreBack, HaveMet, IsSeated, drawn_by};
ghost use Rattle.packet_pool.specs.declared.worker.Worker.{Worker as Ended};

use crate::counter::{Counter, Place, deal, gather};
use crate::worker::Worker;
use gen_publish::{Control, Reader};
use set_model::{Line, Memory};
use std::alloc::Global;

/// Workers with the first readers. The places of these readers are empty then.
pub(crate) fn hand_out(
    alloc: Global,
    counter: &Counter,
    place: &mut Place,
    readers: &mut Vec<Option<Reader>>,
    batches: u64,
    count: usize,
) -> Result<Vec<Worker>, Memory>
    requires table { (place.old.table_id ≡ counter.now.shared.table_id) × (counter.now.shared.table_id.words ≡ 1) }
    requires place { place.old.me ≡ (hand count batches [] 0, []) }
    requires count { (count ≤ length readers.old.items) × (count < 2 ^ 32) }
    requires there { (i : ℕ) → i < count → (d : ReaderView) × (slice_get readers.old.items i ≡ Some (Some d)) }
    ensures workers { IfOk result (λ v. (length v.items ≡ count) × AreDealt readers.old.items batches counter.now.shared.table_id v.items) }
    ensures place { IfOk result (λ _. (place.new.table_id ≡ place.old.table_id) × (place.new.me ≡ (hand 0 batches [] 0, []))) }
    ensures size { IfOk result (λ _. length readers.new.items ≡ length readers.old.items) }
    ensures idle { IfOk result (λ _. (i : ℕ) → count ≤ i → slice_get readers.new.items i ≡ slice_get readers.old.items i) }
{
    let mut workers = Vec::new(alloc);
    for i in 0..count {
        let reader = readers[i].take().unwrap();
        workers.push(Worker {
            thread: i as u32,
            reader,
            place: deal(counter, place),
            lines: Vec::new(alloc),
        })?;
    }
    Ok(workers)
}

/// The lines of the workers, one after another. Their readers are back at their places, and their seats
/// at the counter are one.
pub(crate) fn take_back(
    alloc: Global,
    counter: &Counter,
    place: &mut Place,
    readers: &mut Vec<Option<Reader>>,
    workers: Vec<Worker>,
) -> Result<Vec<Vec<Line>>, Memory>
    requires table { (place.old.table_id ≡ counter.now.shared.table_id) × (counter.now.shared.table_id.words ≡ 1) }
    requires few { length workers.items ≤ length readers.old.items }
    requires numbered { (i : ℕ) (w : Ended) → slice_get workers.items i ≡ Some w → (w.thread ≡ i) × IsSeated counter.now.shared.table_id w }
    ensures lists { IfOk result (λ v. map (λ l. l.items) v.items ≡ map (λ w. w.lines.items) workers.items) }
    ensures readers { IfOk result (λ _. AreBack readers.old.items workers.items readers.new.items) }
    ensures table { IfOk result (λ _. place.new.table_id ≡ place.old.table_id) }
    ensures workers { IfOk result (λ _. place.new.me.0.workers ≡ place.old.me.0.workers + length workers.items) }
    ensures drawn { IfOk result (λ _. place.new.me.0.drawn ≡ place.old.me.0.drawn ++ drawn_by workers.items) }
{
    let mut lists = Vec::new(alloc);
    for worker in workers {
        let Worker {
            thread,
            reader,
            place: theirs,
            lines,
        } = worker;
        readers[thread as usize] = Some(reader);
        gather(counter, place, theirs);
        lists.push(lines)?;
    }
    Ok(lists)
}

/// The control takes what the reader notes, and the reader what the control notes.
fn meet(control: &mut Control, reader: &mut Reader)
    requires { reader.old.of ≡ control.old.of }
    ensures same { control.new ≡ control.old }
    ensures begins { StartsWith control.old.committed reader.old.seen }
    ensures met { reader.new ≡ record reader.old { seen = control.old.committed } }
{
    control.hear(reader.note());
    reader.meet(control.note());
}

/// Each reader meets the control.
pub(crate) fn meet_all(control: &mut Control, readers: &mut Vec<Option<Reader>>)
    requires { (i : ℕ) (d : ReaderView) → slice_get readers.old.items i ≡ Some (Some d) → d.of ≡ control.old.of }
    ensures same { control.new ≡ control.old }
    ensures met { HaveMet control.old.committed readers.old.items readers.new.items }
{
    for slot in readers.iter_mut() {
        if let Some(reader) = slot {
            meet(control, reader);
        }
    }
}
