//! The library as a C program calls it: `pipapo.h` declares these calls. No crate is built on this one.
//!
//! Each export is a call of `c_handles`, and states that call's clauses again. A `Global` takes no bytes, so C passes
//! nothing for it. A slice is a pointer and a count.
//!
//! **Definitions:** those of `c_handles`.
#![tactic(auto)]

ghost use Rattle.std.specs.Prelude.{◌≡◌, ◌<◌, ◌*◌, length, map, None};
ghost use Rattle.c_handles.specs.Starting.{HasStarted};
ghost use Rattle.c_handles.specs.StartCauses.{IsRefusedStart};
ghost use Rattle.c_handles.specs.Scripting.{HasScripted, IsRefusedText};
ghost use Rattle.c_handles.specs.Listing.{HasListed, IsRefusedListing};
ghost use Rattle.c_handles.specs.Describing.{HasDescribed, RefusesDescription};
ghost use Rattle.c_handles.specs.Elements.{HasElement, HasElements, RefusesElement, RefusesElements};
ghost use Rattle.c_handles.specs.Notes.{HasHeard, HasMet, HasNoted, IsRefusedMeeting, RefusesHearing, RefusesNote};
ghost use Rattle.c_handles.specs.Seats.{Stays, WentIn, WentOut};
ghost use Rattle.c_handles.specs.Causes.{IsRefusal, IsRefusedChange, RefusesInsertion, RefusesCreation, RefusesDeletion, RefusesDestruction, RefusesFlush, RefusesCommit, RefusesReaders, RefusesEntry, RefusesHolder, RefusesLookup, RefusesLookups};
ghost use Rattle.c_handles.specs.Calls.{HasInserted, HasCreated, HasDeleted, HasDestroyed, HasFlushed, HasCommitted, HasAborted, HasNumber, HasEntered, HasFound, HasFoundAll, HasGeneration, HasMoved, TakesKey, TakesKeys, seen_by, kinds_in, kinds_by};

use c_handles::{Answer, DeclaredSet, ElementShape, Handle, ScriptFault, SetShape};
use std::alloc::Global;

#[unsafe(no_mangle)]
pub extern "C" fn pipapo_start(
    alloc: Global,
    sets: &[SetShape],
    control: &mut Handle,
    readers: &mut [Handle],
) -> u32
    ensures done { result ≡ 0 → HasStarted sets.now control.new.held (map (λ h. h.held) readers.new) }
    ensures unchanged { 0 < result → (control.new ≡ control.old) × (readers.new ≡ readers.old) }
    ensures refused { 0 < result → IsRefusedStart sets.now (length readers.old) result }
{
    c_handles::start(alloc, sets, control, readers)
}

#[unsafe(no_mangle)]
pub extern "C" fn pipapo_start_script(
    alloc: Global,
    text: &[u8],
    control: &mut Handle,
    readers: &mut [Handle],
    place: &mut ScriptFault,
) -> u32
    ensures done { result ≡ 0 → HasScripted text.now control.new.held (map (λ h. h.held) readers.new) }
    ensures unchanged { 0 < result → (control.new ≡ control.old) × (readers.new ≡ readers.old) }
    ensures refused { 0 < result → IsRefusedText text.now (length readers.old) result place.new }
{
    c_handles::start_script(alloc, text, control, readers, place)
}

#[unsafe(no_mangle)]
pub extern "C" fn pipapo_free(alloc: Global, handle: &mut Handle)
    ensures { handle.new.held ≡ None }
{
    c_handles::free(alloc, handle);
}

#[unsafe(no_mangle)]
pub extern "C" fn pipapo_insert(
    alloc: Global,
    control: &mut Handle,
    set: u32,
    bounds: &[u8],
    expiry: u64,
    comment: &[u8],
    now: u64,
    answer: &mut Answer,
) -> u32
    ensures done { result ≡ 0 → HasInserted control.old.held set bounds.now expiry comment.now now control.new.held answer.new }
    ensures unchanged { 0 < result → control.new.held ≡ control.old.held }
    ensures refused { 0 < result → IsRefusedChange (RefusesInsertion set bounds.now expiry comment.now now) control.old.held result answer.new }
{
    c_handles::insert(alloc, control, set, bounds, expiry, comment, now, answer)
}

#[unsafe(no_mangle)]
pub extern "C" fn pipapo_create(
    alloc: Global,
    control: &mut Handle,
    set: u32,
    bounds: &[u8],
    expiry: u64,
    comment: &[u8],
    now: u64,
    answer: &mut Answer,
) -> u32
    ensures done { result ≡ 0 → HasCreated control.old.held set bounds.now expiry comment.now now control.new.held answer.new }
    ensures unchanged { 0 < result → control.new.held ≡ control.old.held }
    ensures refused { 0 < result → IsRefusedChange (RefusesCreation set bounds.now expiry comment.now now) control.old.held result answer.new }
{
    c_handles::create(alloc, control, set, bounds, expiry, comment, now, answer)
}

#[unsafe(no_mangle)]
pub extern "C" fn pipapo_delete(
    alloc: Global,
    control: &mut Handle,
    set: u32,
    bounds: &[u8],
    now: u64,
    answer: &mut Answer,
) -> u32
    ensures done { result ≡ 0 → HasDeleted control.old.held set bounds.now now control.new.held answer.new }
    ensures unchanged { 0 < result → control.new.held ≡ control.old.held }
    ensures refused { 0 < result → IsRefusedChange (RefusesDeletion set bounds.now now) control.old.held result answer.new }
{
    c_handles::delete(alloc, control, set, bounds, now, answer)
}

#[unsafe(no_mangle)]
pub extern "C" fn pipapo_destroy(
    alloc: Global,
    control: &mut Handle,
    set: u32,
    bounds: &[u8],
    now: u64,
    answer: &mut Answer,
) -> u32
    ensures done { result ≡ 0 → HasDestroyed control.old.held set bounds.now now control.new.held answer.new }
    ensures unchanged { 0 < result → control.new.held ≡ control.old.held }
    ensures refused { 0 < result → IsRefusedChange (RefusesDestruction set bounds.now) control.old.held result answer.new }
{
    c_handles::destroy(alloc, control, set, bounds, now, answer)
}

#[unsafe(no_mangle)]
pub extern "C" fn pipapo_flush(
    alloc: Global,
    control: &mut Handle,
    set: u32,
    count: &mut u64,
) -> u32
    ensures done { result ≡ 0 → HasFlushed control.old.held set control.new.held count.new }
    ensures unchanged { 0 < result → control.new.held ≡ control.old.held }
    ensures refused { 0 < result → IsRefusal (RefusesFlush set) control.old.held result }
{
    c_handles::flush(alloc, control, set, count)
}

#[unsafe(no_mangle)]
pub extern "C" fn pipapo_commit(
    alloc: Global,
    control: &mut Handle,
    now: u64,
    generation: &mut u64,
    purged: &mut u64,
) -> u32
    ensures done { result ≡ 0 → HasCommitted control.old.held now control.new.held (record { generation = generation.new; purged = purged.new }) }
    ensures unchanged { 0 < result → control.new.held ≡ control.old.held }
    ensures refused { 0 < result → IsRefusal RefusesCommit control.old.held result }
{
    c_handles::commit(alloc, control, now, generation, purged)
}

#[unsafe(no_mangle)]
pub extern "C" fn pipapo_abort(alloc: Global, control: &mut Handle) -> u32
    ensures done { result ≡ 0 → HasAborted control.old.held control.new.held }
    ensures unchanged { 0 < result → control.new.held ≡ control.old.held }
    ensures refused { 0 < result → IsRefusal RefusesReaders control.old.held result }
{
    c_handles::abort(alloc, control)
}

#[unsafe(no_mangle)]
pub extern "C" fn pipapo_number(alloc: Global, control: &mut Handle, generation: &mut u64) -> u32
    ensures same { control.new.held ≡ control.old.held }
    ensures done { result ≡ 0 → HasNumber control.old.held generation.new }
    ensures refused { 0 < result → IsRefusal RefusesReaders control.old.held result }
{
    c_handles::number(alloc, control, generation)
}

#[unsafe(no_mangle)]
pub extern "C" fn pipapo_describe(
    alloc: Global,
    control: &mut Handle,
    set: u32,
    declared: &mut DeclaredSet,
) -> u32
    ensures same { control.new.held ≡ control.old.held }
    ensures done { result ≡ 0 → HasDescribed control.old.held set declared.new }
    ensures unchanged { 0 < result → declared.new ≡ declared.old }
    ensures refused { 0 < result → IsRefusal (RefusesDescription set) control.old.held result }
{
    c_handles::describe(alloc, control, set, declared)
}

#[unsafe(no_mangle)]
pub extern "C" fn pipapo_elements_of(
    alloc: Global,
    handle: &mut Handle,
    set: u32,
    elements: &mut Handle,
    count: &mut u64,
) -> u32
    ensures same { handle.new.held ≡ handle.old.held }
    ensures done { result ≡ 0 → HasElements handle.old.held set elements.new.held count.new }
    ensures unchanged { 0 < result → (elements.new.held ≡ elements.old.held) × (count.new ≡ count.old) }
    ensures refused { 0 < result → IsRefusal (RefusesElements set) handle.old.held result }
{
    c_handles::elements_of(alloc, handle, set, elements, count)
}

#[unsafe(no_mangle)]
pub extern "C" fn pipapo_element_at(
    alloc: Global,
    elements: &mut Handle,
    place: u64,
    bounds: &mut [u8],
    comment: &mut [u8],
    element: &mut ElementShape,
) -> u32
    ensures same { elements.new.held ≡ elements.old.held }
    ensures done { result ≡ 0 → HasElement elements.old.held place bounds.old bounds.new comment.old comment.new element.new }
    ensures unchanged { 0 < result → (bounds.new ≡ bounds.old) × (comment.new ≡ comment.old) }
    ensures refused { 0 < result → IsRefusal (RefusesElement place (length bounds.old) (length comment.old) element.new) elements.old.held result }
{
    c_handles::element_at(alloc, elements, place, bounds, comment, element)
}

#[unsafe(no_mangle)]
pub extern "C" fn pipapo_list_into(
    alloc: Global,
    control: &mut Handle,
    now: u64,
    text: &mut [u8],
    written: &mut u64,
) -> u32
    ensures same { control.new.held ≡ control.old.held }
    ensures done { result ≡ 0 → HasListed control.old.held now text.old text.new written.new }
    ensures unchanged { 0 < result → text.new ≡ text.old }
    ensures refused { 0 < result → IsRefusedListing control.old.held now (length text.old) result written.new }
{
    c_handles::list_into(alloc, control, now, text, written)
}

#[unsafe(no_mangle)]
pub extern "C" fn pipapo_enter(alloc: Global, reader: &mut Handle, generation: &mut u64) -> u32
    ensures done { result ≡ 0 → HasEntered (seen_by reader.old.held) (seen_by reader.new.held) generation.new }
    ensures moved { result ≡ 0 → HasMoved WentIn reader.old.held reader.new.held }
    ensures unchanged { 0 < result → reader.new.held ≡ reader.old.held }
    ensures refused { 0 < result → IsRefusal RefusesEntry reader.old.held result }
{
    c_handles::enter(alloc, reader, generation)
}

#[unsafe(no_mangle)]
pub extern "C" fn pipapo_leave(alloc: Global, reader: &mut Handle) -> u32
    ensures seen { seen_by reader.new.held ≡ seen_by reader.old.held }
    ensures moved { result ≡ 0 → HasMoved WentOut reader.old.held reader.new.held }
    ensures unchanged { 0 < result → reader.new.held ≡ reader.old.held }
    ensures refused { 0 < result → IsRefusal RefusesHolder reader.old.held result }
{
    c_handles::leave(alloc, reader)
}

#[unsafe(no_mangle)]
pub extern "C" fn pipapo_generation(alloc: Global, reader: &mut Handle, generation: &mut u64) -> u32
    ensures same { reader.new.held ≡ reader.old.held }
    ensures done { result ≡ 0 → HasGeneration (seen_by reader.old.held) generation.new }
    ensures refused { 0 < result → IsRefusal RefusesHolder reader.old.held result }
{
    c_handles::generation(alloc, reader, generation)
}

#[unsafe(no_mangle)]
pub extern "C" fn pipapo_lookup(
    alloc: Global,
    reader: &mut Handle,
    set: u32,
    key: &[u8],
    now: u64,
    id: &mut u64,
) -> u32
    ensures done { result ≡ 0 → HasFound (seen_by reader.old.held) (seen_by reader.new.held) (kinds_in (kinds_by reader.old.held) set) set key.now now id.new }
    ensures taken { result ≡ 0 → TakesKey (kinds_by reader.old.held) set (length key.now) }
    ensures moved { result ≡ 0 → HasMoved Stays reader.old.held reader.new.held }
    ensures unchanged { 0 < result → (reader.new.held ≡ reader.old.held) × (id.new ≡ id.old) }
    ensures refused { 0 < result → IsRefusal (RefusesLookup set (length key.now)) reader.old.held result }
{
    c_handles::lookup(alloc, reader, set, key, now, id)
}

#[unsafe(no_mangle)]
pub extern "C" fn pipapo_lookup_many(
    alloc: Global,
    reader: &mut Handle,
    set: u32,
    keys: &[u8],
    now: u64,
    ids: &mut [u64],
    generation: &mut u64,
) -> u32
    ensures done { result ≡ 0 → HasFoundAll (seen_by reader.old.held) (seen_by reader.new.held) (kinds_in (kinds_by reader.old.held) set) set keys.now now ids.new generation.new }
    ensures taken { result ≡ 0 → TakesKeys (kinds_by reader.old.held) set (length ids.old) (length keys.now) }
    ensures moved { result ≡ 0 → HasMoved Stays reader.old.held reader.new.held }
    ensures unchanged { 0 < result → (reader.new.held ≡ reader.old.held) × (ids.new ≡ ids.old) × (generation.new ≡ generation.old) }
    ensures refused { 0 < result → IsRefusal (RefusesLookups set (length ids.old) (length keys.now)) reader.old.held result }
{
    c_handles::lookup_many(alloc, reader, set, keys, now, ids, generation)
}

#[unsafe(no_mangle)]
pub extern "C" fn pipapo_note(alloc: Global, handle: &mut Handle, note: &mut u64) -> u32
    ensures done { result ≡ 0 → HasNoted handle.old.held handle.new.held note.new }
    ensures unchanged { 0 < result → (handle.new.held ≡ handle.old.held) × (note.new ≡ note.old) }
    ensures refused { 0 < result → IsRefusal RefusesNote handle.old.held result }
{
    c_handles::note(alloc, handle, note)
}

#[unsafe(no_mangle)]
pub extern "C" fn pipapo_meet(alloc: Global, reader: &mut Handle, note: u64) -> u32
    ensures done { result ≡ 0 → HasMet note reader.old.held reader.new.held }
    ensures refused { 0 < result → IsRefusedMeeting note reader.old.held reader.new.held result }
{
    c_handles::meet(alloc, reader, note)
}

#[unsafe(no_mangle)]
pub extern "C" fn pipapo_hear(alloc: Global, control: &mut Handle, note: u64) -> u32
    ensures same { control.new.held ≡ control.old.held }
    ensures done { result ≡ 0 → HasHeard note control.old.held }
    ensures refused { 0 < result → IsRefusal (RefusesHearing note) control.old.held result }
{
    c_handles::hear(alloc, control, note)
}
