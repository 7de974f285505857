//! The changes of a control, and its commits.
ghost use Rattle.std.specs.Prelude.{◌≡◌, ◌<◌, length, IfOk, IfErr, OnErr};
ghost use Rattle.set_space.specs.Open.{FitsSet};
ghost use Rattle.packed_values.specs.Packed.{parts_in};
ghost use Rattle.c_handles.specs.Calls.{Inserts, Creates, Deletes, Destroys, Flushes, Commits, Aborts, IsNumber, IsElement, kinds_at, element_in, expiry_of as the_expiry_of};
ghost use Rattle.c_handles.specs.Causes.{RefusesBounds, RefusesInsertion, RefusesCreation, RefusesDeletion, RefusesDestruction, RefusesFlush, RefusesCommit, RefusesReaders};

use crate::fault::{Fault, fault_of};
use crate::object::Object;
use gen_publish::{Control, Receipt};
use packed_values::{PartsError, read_parts};
use pipapo_image::Added;
use set_model::{Comment, NewElement, Parts};
use std::alloc::Global;

/// The expiry that stands for none.
const NEVER: u64 = u64::MAX;

/// Generations are numbered below it.
const NUMBERS: u64 = 1 << 63;

fn expiry_of(expiry: u64) -> Option<u64>
    ensures { result ≡ the_expiry_of expiry }
{
    if expiry == NEVER { None } else { Some(expiry) }
}

/// The intervals that the bytes stand for in a declared set.
fn parts_of(alloc: Global, control: &Control, set: u32, bounds: &[u8]) -> Result<Parts, Fault>
    ensures parts { IfOk result (λ parts. parts ≡ parts_in (kinds_at control.now.schema set) bounds.now) }
    ensures element { IfOk result (λ parts. IsElement control.now set bounds.now) }
    ensures fits { IfOk result (λ parts. (set < length control.now.work.sets) × FitsSet control.now.work set parts) }
    ensures refused { IfErr result (RefusesBounds control.now set bounds.now) }
{
    let place = u64::from(set);
    if control.schema().len() <= place {
        return Err(Fault::Set);
    }
    control.known();
    match read_parts(alloc, control.schema().at(place).kinds.as_slice(), bounds) {
        Ok(parts) => Ok(parts),
        Err(PartsError::Length) => Err(Fault::Length),
        Err(PartsError::Falls) => Err(Fault::Interval),
        Err(PartsError::Memory) => Err(Fault::Memory),
    }
}

fn element_of(
    alloc: Global,
    control: &Control,
    set: u32,
    bounds: &[u8],
    expiry: u64,
    comment: &[u8],
) -> Result<NewElement, Fault>
    ensures new_element { IfOk result (λ e. e ≡ element_in control.now.schema set bounds.now expiry comment.now) }
    ensures element { IfOk result (λ e. IsElement control.now set bounds.now) }
    ensures fits { IfOk result (λ e. (set < length control.now.work.sets) × FitsSet control.now.work set e.parts) }
    ensures refused { IfErr result (RefusesBounds control.now set bounds.now) }
{
    let parts = match parts_of(alloc, control, set, bounds) {
        Ok(parts) => parts,
        Err(fault) => return Err(fault),
    };
    let Ok(comment) = Vec::from_slice(alloc, comment) else {
        return Err(Fault::Memory);
    };
    Ok(NewElement {
        parts,
        expiry: expiry_of(expiry),
        comment: Comment::from_vec(alloc, comment),
    })
}

/// Inserts into an open set of a control.
fn insert_in(
    alloc: Global,
    control: &mut Control,
    set: u32,
    bounds: &[u8],
    expiry: u64,
    comment: &[u8],
    now: u64,
) -> Result<Added, Fault>
    ensures ok { IfOk result (λ it. Inserts (Object.Control control.old) set bounds.now expiry comment.now now (Object.Control control.new) it) }
    ensures err { OnErr result (control.new ≡ control.old) }
    ensures refused { IfErr result (RefusesInsertion set bounds.now expiry comment.now now (Object.Control control.old)) }
{
    let element = match element_of(alloc, control, set, bounds, expiry, comment) {
        Ok(element) => element,
        Err(fault) => return Err(fault),
    };
    match control.insert(set, &element, now) {
        Ok(done) => Ok(done),
        Err(error) => Err(fault_of(error)),
    }
}

/// Inserts into an open set.
pub(crate) fn insert(
    alloc: Global,
    object: &mut Object,
    set: u32,
    bounds: &[u8],
    expiry: u64,
    comment: &[u8],
    now: u64,
) -> Result<Added, Fault>
    ensures ok { IfOk result (λ done. Inserts object.old set bounds.now expiry comment.now now object.new done) }
    ensures err { OnErr result (object.new ≡ object.old) }
    ensures refused { IfErr result (RefusesInsertion set bounds.now expiry comment.now now object.old) }
{
    match object {
        Object::Control(control) => insert_in(alloc, control, set, bounds, expiry, comment, now),
        Object::Reader(_) | Object::Elements(_) => Err(Fault::Handle),
    }
}

/// Creates an element in an open set of a control.
fn create_in(
    alloc: Global,
    control: &mut Control,
    set: u32,
    bounds: &[u8],
    expiry: u64,
    comment: &[u8],
    now: u64,
) -> Result<u64, Fault>
    ensures ok { IfOk result (λ it. Creates (Object.Control control.old) set bounds.now expiry comment.now now (Object.Control control.new) it) }
    ensures err { OnErr result (control.new ≡ control.old) }
    ensures refused { IfErr result (RefusesCreation set bounds.now expiry comment.now now (Object.Control control.old)) }
{
    let element = match element_of(alloc, control, set, bounds, expiry, comment) {
        Ok(element) => element,
        Err(fault) => return Err(fault),
    };
    match control.create(set, &element, now) {
        Ok(done) => Ok(done),
        Err(error) => Err(fault_of(error)),
    }
}

/// Inserts into an open set in which no live element of the same intervals is, and gives the new id.
pub(crate) fn create(
    alloc: Global,
    object: &mut Object,
    set: u32,
    bounds: &[u8],
    expiry: u64,
    comment: &[u8],
    now: u64,
) -> Result<u64, Fault>
    ensures ok { IfOk result (λ done. Creates object.old set bounds.now expiry comment.now now object.new done) }
    ensures err { OnErr result (object.new ≡ object.old) }
    ensures refused { IfErr result (RefusesCreation set bounds.now expiry comment.now now object.old) }
{
    match object {
        Object::Control(control) => create_in(alloc, control, set, bounds, expiry, comment, now),
        Object::Reader(_) | Object::Elements(_) => Err(Fault::Handle),
    }
}

/// Deletes from an open set of a control.
fn delete_in(
    alloc: Global,
    control: &mut Control,
    set: u32,
    bounds: &[u8],
    now: u64,
) -> Result<u64, Fault>
    ensures ok { IfOk result (λ it. Deletes (Object.Control control.old) set bounds.now now (Object.Control control.new) it) }
    ensures err { OnErr result (control.new ≡ control.old) }
    ensures refused { IfErr result (RefusesDeletion set bounds.now now (Object.Control control.old)) }
{
    let parts = match parts_of(alloc, control, set, bounds) {
        Ok(parts) => parts,
        Err(fault) => return Err(fault),
    };
    match control.delete(set, &parts, now) {
        Ok(done) => Ok(done),
        Err(error) => Err(fault_of(error)),
    }
}

/// Takes the first live element of exactly these intervals out, and gives its id.
pub(crate) fn delete(
    alloc: Global,
    object: &mut Object,
    set: u32,
    bounds: &[u8],
    now: u64,
) -> Result<u64, Fault>
    ensures ok { IfOk result (λ done. Deletes object.old set bounds.now now object.new done) }
    ensures err { OnErr result (object.new ≡ object.old) }
    ensures refused { IfErr result (RefusesDeletion set bounds.now now object.old) }
{
    match object {
        Object::Control(control) => delete_in(alloc, control, set, bounds, now),
        Object::Reader(_) | Object::Elements(_) => Err(Fault::Handle),
    }
}

/// Destroys an element in an open set of a control.
fn destroy_in(
    alloc: Global,
    control: &mut Control,
    set: u32,
    bounds: &[u8],
    now: u64,
) -> Result<Option<u64>, Fault>
    ensures ok { IfOk result (λ it. Destroys (Object.Control control.old) set bounds.now now (Object.Control control.new) it) }
    ensures err { OnErr result (control.new ≡ control.old) }
    ensures refused { IfErr result (RefusesDestruction set bounds.now (Object.Control control.old)) }
{
    let parts = match parts_of(alloc, control, set, bounds) {
        Ok(parts) => parts,
        Err(fault) => return Err(fault),
    };
    match control.destroy(set, &parts, now) {
        Ok(done) => Ok(done),
        Err(_) => Err(Fault::Memory),
    }
}

/// As `delete`, and `None` if there is no such element.
pub(crate) fn destroy(
    alloc: Global,
    object: &mut Object,
    set: u32,
    bounds: &[u8],
    now: u64,
) -> Result<Option<u64>, Fault>
    ensures ok { IfOk result (λ done. Destroys object.old set bounds.now now object.new done) }
    ensures err { OnErr result (object.new ≡ object.old) }
    ensures refused { IfErr result (RefusesDestruction set bounds.now object.old) }
{
    match object {
        Object::Control(control) => destroy_in(alloc, control, set, bounds, now),
        Object::Reader(_) | Object::Elements(_) => Err(Fault::Handle),
    }
}

/// Takes all elements out of an open set, and gives how many there were.
pub(crate) fn flush(object: &mut Object, set: u32) -> Result<u64, Fault>
    ensures ok { IfOk result (λ count. Flushes object.old set object.new count) }
    ensures err { OnErr result (object.new ≡ object.old) }
    ensures refused { IfErr result (RefusesFlush set object.old) }
{
    match object {
        Object::Control(control) => {
            if control.schema().len() <= u64::from(set) {
                return Err(Fault::Set);
            }
            control.known();
            match control.flush(set) {
                Ok(count) => Ok(count),
                Err(_) => Err(Fault::Memory),
            }
        }
        Object::Reader(_) | Object::Elements(_) => Err(Fault::Handle),
    }
}

/// Commits the open sets.
pub(crate) fn commit(object: &mut Object, now: u64) -> Result<Receipt, Fault>
    ensures ok { IfOk result (λ receipt. Commits object.old now object.new receipt) }
    ensures err { OnErr result (object.new ≡ object.old) }
    ensures refused { IfErr result (RefusesCommit object.old) }
{
    match object {
        Object::Control(control) => {
            if NUMBERS <= control.number() {
                return Err(Fault::Numbers);
            }
            match control.commit(now) {
                Ok(receipt) => Ok(receipt),
                Err(_) => Err(Fault::Memory),
            }
        }
        Object::Reader(_) | Object::Elements(_) => Err(Fault::Handle),
    }
}

/// Takes all open changes back.
pub(crate) fn abort(object: &mut Object) -> Result<(), Fault>
    ensures ok { IfOk result (λ _. Aborts object.old object.new) }
    ensures err { OnErr result (object.new ≡ object.old) }
    ensures refused { IfErr result (RefusesReaders object.old) }
{
    match object {
        Object::Control(control) => {
            control.abort();
            Ok(())
        }
        Object::Reader(_) | Object::Elements(_) => Err(Fault::Handle),
    }
}

/// The number of the last generation.
pub(crate) fn number(object: &Object) -> Result<u64, Fault>
    ensures ok { IfOk result (IsNumber object.now) }
    ensures refused { IfErr result (RefusesReaders object.now) }
{
    match object {
        Object::Control(control) => Ok(control.number()),
        Object::Reader(_) | Object::Elements(_) => Err(Fault::Handle),
    }
}
