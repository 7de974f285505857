//! Notes from one thread to another. A note is the number of a generation.
ghost use Rattle.std.specs.Prelude.{◌≡◌, ◌<◌, Some, IfOk, IfErr, OnOk, OnErr};
ghost use Rattle.c_handles.specs.Causes.{IsRefusal};
ghost use Rattle.c_handles.specs.Codes.{code_of};
ghost use Rattle.c_handles.specs.Notes.{HasHeard, HasMet, HasNoted, IsRefusedMeeting, RefusesHearing, RefusesNote};

use crate::fault::{DONE, Fault};
use crate::handle::Handle;
use crate::object::Object;
use std::alloc::Global;

/// A note of what the control committed, or of what the reader has seen. A reader that holds no generation looks at the published
/// one first.
fn note_in(object: &mut Object) -> Result<u64, Fault>
    ensures ok { IfOk result (λ note. HasNoted (Some object.old) (Some object.new) note) }
    ensures err { OnErr result (object.new ≡ object.old) }
    ensures refused { IfErr result (RefusesNote object.old) }
{
    match object {
        Object::Control(control) => Ok(control.number()),
        Object::Reader(seat) => seat.look(),
        Object::Elements(_) => Err(Fault::Handle),
    }
}

/// `note` gets the number of the last generation that the control committed, or that the reader has seen. A reader that holds no
/// generation looks at the published one first.
pub fn note(alloc: Global, handle: &mut Handle, note: &mut u64) -> u32
    ensures done { result ≡ 0 → HasNoted handle.old.held handle.new.held note.new }
    ensures unchanged { 0 < result → (handle.new.held ≡ handle.old.held) × (note.new ≡ note.old) }
    ensures refused { 0 < result → IsRefusal RefusesNote handle.old.held result }
{
    let Some(mut boxed) = handle.take(alloc) else {
        return Fault::Empty.code();
    };
    let outcome = note_in(&mut boxed);
    handle.put(boxed);
    match outcome {
        Ok(number) => {
            *note = number;
            DONE
        }
        Err(fault) => fault.code(),
    }
}

fn meet_in(object: &mut Object, note: u64) -> Result<(), Fault>
    ensures ok { OnOk result (HasMet note (Some object.old) (Some object.new)) }
    ensures refused { IfErr result (λ fault. IsRefusedMeeting note (Some object.old) (Some object.new) (code_of fault)) }
{
    match object {
        Object::Reader(seat) => seat.meet(note),
        Object::Control(_) | Object::Elements(_) => Err(Fault::Handle),
    }
}

/// From now on the reader enters no generation before the note's.
pub fn meet(alloc: Global, reader: &mut Handle, note: u64) -> u32
    ensures done { result ≡ 0 → HasMet note reader.old.held reader.new.held }
    ensures refused { 0 < result → IsRefusedMeeting note reader.old.held reader.new.held result }
{
    let Some(mut boxed) = reader.take(alloc) else {
        return Fault::Empty.code();
    };
    let outcome = meet_in(&mut boxed, note);
    reader.put(boxed);
    match outcome {
        Ok(()) => DONE,
        Err(fault) => fault.code(),
    }
}

fn hear_in(object: &Object, note: u64) -> Result<(), Fault>
    ensures ok { OnOk result (HasHeard note (Some object.now)) }
    ensures refused { IfErr result (RefusesHearing note object.now) }
{
    match object {
        Object::Control(control) => {
            if control.number() < note {
                return Err(Fault::Note);
            }
            Ok(())
        }
        Object::Reader(_) | Object::Elements(_) => Err(Fault::Handle),
    }
}

/// Whether the control committed the generation of a note.
pub fn hear(alloc: Global, control: &mut Handle, note: u64) -> u32
    ensures same { control.new.held ≡ control.old.held }
    ensures done { result ≡ 0 → HasHeard note control.old.held }
    ensures refused { 0 < result → IsRefusal (RefusesHearing note) control.old.held result }
{
    let Some(boxed) = control.take(alloc) else {
        return Fault::Empty.code();
    };
    let outcome = hear_in(&boxed, note);
    control.put(boxed);
    match outcome {
        Ok(()) => DONE,
        Err(fault) => fault.code(),
    }
}
