//! The calls on a reader's handle.
ghost use Rattle.std.specs.Prelude.{◌≡◌, ◌<◌, ◌*◌, length};
ghost use Rattle.c_handles.specs.Seats.{Stays, WentIn, WentOut};
ghost use Rattle.c_handles.specs.Calls.{HasEntered, HasFound, HasFoundAll, HasGeneration, HasMoved, TakesKey, TakesKeys, seen_by, kinds_in, kinds_by};
ghost use Rattle.c_handles.specs.Causes.{IsRefusal, RefusesEntry, RefusesHolder, RefusesLookup, RefusesLookups};

use crate::fault::{DONE, Fault};
use crate::handle::Handle;
use std::alloc::Global;

/// Holds the published generation until `leave`. `generation` gets its number.
pub fn enter(alloc: Global, reader: &mut Handle, generation: &mut u64) -> u32
    ensures done { result ≡ 0 → HasEntered (seen_by reader.old.held) (seen_by reader.new.held) generation.new }
    ensures moved { result ≡ 0 → HasMoved WentIn reader.old.held reader.new.held }
    ensures unchanged { 0 < result → reader.new.held ≡ reader.old.held }
    ensures refused { 0 < result → IsRefusal RefusesEntry reader.old.held result }
{
    let Some(mut boxed) = reader.take(alloc) else {
        return Fault::Empty.code();
    };
    let outcome = boxed.enter();
    reader.put(boxed);
    match outcome {
        Ok(number) => {
            *generation = number;
            DONE
        }
        Err(fault) => fault.code(),
    }
}

/// Holds nothing any more.
pub fn leave(alloc: Global, reader: &mut Handle) -> u32
    ensures seen { seen_by reader.new.held ≡ seen_by reader.old.held }
    ensures moved { result ≡ 0 → HasMoved WentOut reader.old.held reader.new.held }
    ensures unchanged { 0 < result → reader.new.held ≡ reader.old.held }
    ensures refused { 0 < result → IsRefusal RefusesHolder reader.old.held result }
{
    let Some(mut boxed) = reader.take(alloc) else {
        return Fault::Empty.code();
    };
    let outcome = boxed.leave();
    reader.put(boxed);
    match outcome {
        Ok(()) => DONE,
        Err(fault) => fault.code(),
    }
}

/// `generation` gets the number of the held generation.
pub fn generation(alloc: Global, reader: &mut Handle, generation: &mut u64) -> u32
    ensures same { reader.new.held ≡ reader.old.held }
    ensures done { result ≡ 0 → HasGeneration (seen_by reader.old.held) generation.new }
    ensures refused { 0 < result → IsRefusal RefusesHolder reader.old.held result }
{
    let Some(boxed) = reader.take(alloc) else {
        return Fault::Empty.code();
    };
    let outcome = boxed.generation();
    reader.put(boxed);
    match outcome {
        Ok(number) => {
            *generation = number;
            DONE
        }
        Err(fault) => fault.code(),
    }
}

/// Looks a key up in the held generation, or else in the published one. `id` gets the element's, or the largest number.
pub fn lookup(
    alloc: Global,
    reader: &mut Handle,
    set: u32,
    key: &[u8],
    now: u64,
    id: &mut u64,
) -> u32
    ensures done { result ≡ 0 → HasFound (seen_by reader.old.held) (seen_by reader.new.held) (kinds_in (kinds_by reader.old.held) set) set key.now now id.new }
    ensures taken { result ≡ 0 → TakesKey (kinds_by reader.old.held) set (length key.now) }
    ensures moved { result ≡ 0 → HasMoved Stays reader.old.held reader.new.held }
    ensures unchanged { 0 < result → (reader.new.held ≡ reader.old.held) × (id.new ≡ id.old) }
    ensures refused { 0 < result → IsRefusal (RefusesLookup set (length key.now)) reader.old.held result }
{
    let Some(mut boxed) = reader.take(alloc) else {
        return Fault::Empty.code();
    };
    let outcome = boxed.lookup(set, key, now);
    reader.put(boxed);
    match outcome {
        Ok(found) => {
            *id = found;
            DONE
        }
        Err(fault) => fault.code(),
    }
}

/// Looks keys up, one after the other, all in one generation: the held one, or else the published one. There are as many as
/// `ids`, which get the elements' ids, or the largest number. `generation` gets the generation's number.
pub fn lookup_many(
    alloc: Global,
    reader: &mut Handle,
    set: u32,
    keys: &[u8],
    now: u64,
    ids: &mut [u64],
    generation: &mut u64,
) -> u32
    ensures done { result ≡ 0 → HasFoundAll (seen_by reader.old.held) (seen_by reader.new.held) (kinds_in (kinds_by reader.old.held) set) set keys.now now ids.new generation.new }
    ensures taken { result ≡ 0 → TakesKeys (kinds_by reader.old.held) set (length ids.old) (length keys.now) }
    ensures moved { result ≡ 0 → HasMoved Stays reader.old.held reader.new.held }
    ensures unchanged { 0 < result → (reader.new.held ≡ reader.old.held) × (ids.new ≡ ids.old) × (generation.new ≡ generation.old) }
    ensures refused { 0 < result → IsRefusal (RefusesLookups set (length ids.old) (length keys.now)) reader.old.held result }
{
    let Some(mut boxed) = reader.take(alloc) else {
        return Fault::Empty.code();
    };
    let outcome = boxed.lookup_all(set, keys, now, ids);
    reader.put(boxed);
    match outcome {
        Ok(number) => {
            *generation = number;
            DONE
        }
        Err(fault) => fault.code(),
    }
}
