//! The calls on a control's handle.
ghost use Rattle.std.specs.Prelude.{◌≡◌, ◌<◌};
ghost use Rattle.c_handles.specs.Calls.{HasInserted, HasCreated, HasDeleted, HasDestroyed, HasFlushed, HasCommitted, HasAborted, HasNumber};
ghost use Rattle.c_handles.specs.Causes.{IsRefusal, IsRefusedChange, RefusesInsertion, RefusesCreation, RefusesDeletion, RefusesDestruction, RefusesFlush, RefusesCommit, RefusesReaders};

use crate::answer::Answer;
use crate::changes;
use crate::fault::{DONE, Fault};
use crate::handle::Handle;
use std::alloc::Global;

/// Inserts an element of these intervals into an open set.
pub fn insert(
    alloc: Global,
    control: &mut Handle,
    set: u32,
    bounds: &[u8],
    expiry: u64,
    comment: &[u8],
    now: u64,
    answer: &mut Answer,
) -> u32
    ensures done { result ≡ 0 → HasInserted control.old.held set bounds.now expiry comment.now now control.new.held answer.new }
    ensures unchanged { 0 < result → control.new.held ≡ control.old.held }
    ensures refused { 0 < result → IsRefusedChange (RefusesInsertion set bounds.now expiry comment.now now) control.old.held result answer.new }
{
    let Some(mut boxed) = control.take(alloc) else {
        *answer = Answer::refused(Fault::Empty);
        return Fault::Empty.code();
    };
    let outcome = changes::insert(alloc, &mut boxed, set, bounds, expiry, comment, now);
    control.put(boxed);
    match outcome {
        Ok(added) => {
            *answer = Answer::added(added);
            DONE
        }
        Err(fault) => {
            *answer = Answer::refused(fault);
            fault.code()
        }
    }
}

/// Inserts an element of these intervals into an open set in which no live element has the same.
pub fn create(
    alloc: Global,
    control: &mut Handle,
    set: u32,
    bounds: &[u8],
    expiry: u64,
    comment: &[u8],
    now: u64,
    answer: &mut Answer,
) -> u32
    ensures done { result ≡ 0 → HasCreated control.old.held set bounds.now expiry comment.now now control.new.held answer.new }
    ensures unchanged { 0 < result → control.new.held ≡ control.old.held }
    ensures refused { 0 < result → IsRefusedChange (RefusesCreation set bounds.now expiry comment.now now) control.old.held result answer.new }
{
    let Some(mut boxed) = control.take(alloc) else {
        *answer = Answer::refused(Fault::Empty);
        return Fault::Empty.code();
    };
    let outcome = changes::create(alloc, &mut boxed, set, bounds, expiry, comment, now);
    control.put(boxed);
    match outcome {
        Ok(id) => {
            *answer = Answer::created(id);
            DONE
        }
        Err(fault) => {
            *answer = Answer::refused(fault);
            fault.code()
        }
    }
}

/// Takes the first live element of exactly these intervals out of an open set.
pub fn delete(
    alloc: Global,
    control: &mut Handle,
    set: u32,
    bounds: &[u8],
    now: u64,
    answer: &mut Answer,
) -> u32
    ensures done { result ≡ 0 → HasDeleted control.old.held set bounds.now now control.new.held answer.new }
    ensures unchanged { 0 < result → control.new.held ≡ control.old.held }
    ensures refused { 0 < result → IsRefusedChange (RefusesDeletion set bounds.now now) control.old.held result answer.new }
{
    let Some(mut boxed) = control.take(alloc) else {
        *answer = Answer::refused(Fault::Empty);
        return Fault::Empty.code();
    };
    let outcome = changes::delete(alloc, &mut boxed, set, bounds, now);
    control.put(boxed);
    match outcome {
        Ok(id) => {
            *answer = Answer::removed(id);
            DONE
        }
        Err(fault) => {
            *answer = Answer::refused(fault);
            fault.code()
        }
    }
}

/// As `delete`, and done also if there is no such element.
pub fn destroy(
    alloc: Global,
    control: &mut Handle,
    set: u32,
    bounds: &[u8],
    now: u64,
    answer: &mut Answer,
) -> u32
    ensures done { result ≡ 0 → HasDestroyed control.old.held set bounds.now now control.new.held answer.new }
    ensures unchanged { 0 < result → control.new.held ≡ control.old.held }
    ensures refused { 0 < result → IsRefusedChange (RefusesDestruction set bounds.now) control.old.held result answer.new }
{
    let Some(mut boxed) = control.take(alloc) else {
        *answer = Answer::refused(Fault::Empty);
        return Fault::Empty.code();
    };
    let outcome = changes::destroy(alloc, &mut boxed, set, bounds, now);
    control.put(boxed);
    match outcome {
        Ok(removed) => {
            *answer = Answer::destroyed(removed);
            DONE
        }
        Err(fault) => {
            *answer = Answer::refused(fault);
            fault.code()
        }
    }
}

/// Takes all elements out of an open set. `count` gets how many there were.
pub fn flush(alloc: Global, control: &mut Handle, set: u32, count: &mut u64) -> u32
    ensures done { result ≡ 0 → HasFlushed control.old.held set control.new.held count.new }
    ensures unchanged { 0 < result → control.new.held ≡ control.old.held }
    ensures refused { 0 < result → IsRefusal (RefusesFlush set) control.old.held result }
{
    let Some(mut boxed) = control.take(alloc) else {
        return Fault::Empty.code();
    };
    let outcome = changes::flush(&mut boxed, set);
    control.put(boxed);
    match outcome {
        Ok(removed) => {
            *count = removed;
            DONE
        }
        Err(fault) => fault.code(),
    }
}

/// Commits the open sets, without what is expired at `now`. `generation` gets the number of the new generation, `purged`
/// how many elements were expired.
pub fn commit(
    alloc: Global,
    control: &mut Handle,
    now: u64,
    generation: &mut u64,
    purged: &mut u64,
) -> u32
    ensures done { result ≡ 0 → HasCommitted control.old.held now control.new.held (record { generation = generation.new; purged = purged.new }) }
    ensures unchanged { 0 < result → control.new.held ≡ control.old.held }
    ensures refused { 0 < result → IsRefusal RefusesCommit control.old.held result }
{
    let Some(mut boxed) = control.take(alloc) else {
        return Fault::Empty.code();
    };
    let outcome = changes::commit(&mut boxed, now);
    control.put(boxed);
    match outcome {
        Ok(receipt) => {
            *generation = receipt.generation;
            *purged = receipt.purged;
            DONE
        }
        Err(fault) => fault.code(),
    }
}

/// Takes all open changes back.
pub fn abort(alloc: Global, control: &mut Handle) -> u32
    ensures done { result ≡ 0 → HasAborted control.old.held control.new.held }
    ensures unchanged { 0 < result → control.new.held ≡ control.old.held }
    ensures refused { 0 < result → IsRefusal RefusesReaders control.old.held result }
{
    let Some(mut boxed) = control.take(alloc) else {
        return Fault::Empty.code();
    };
    let outcome = changes::abort(&mut boxed);
    control.put(boxed);
    match outcome {
        Ok(()) => DONE,
        Err(fault) => fault.code(),
    }
}

/// `generation` gets the number of the last generation.
pub fn number(alloc: Global, control: &mut Handle, generation: &mut u64) -> u32
    ensures same { control.new.held ≡ control.old.held }
    ensures done { result ≡ 0 → HasNumber control.old.held generation.new }
    ensures refused { 0 < result → IsRefusal RefusesReaders control.old.held result }
{
    let Some(boxed) = control.take(alloc) else {
        return Fault::Empty.code();
    };
    let outcome = changes::number(&boxed);
    control.put(boxed);
    match outcome {
        Ok(last) => {
            *generation = last;
            DONE
        }
        Err(fault) => fault.code(),
    }
}
