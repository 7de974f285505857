//! The calls on the elements of a set.
ghost use Rattle.std.specs.Prelude.{◌≡◌, ◌<◌, length, Some, IfErr, OnOk, OnErr};
ghost use Rattle.c_handles.specs.Causes.{IsRefusal};
ghost use Rattle.c_handles.specs.Elements.{HasElement, HasElements, RefusesElement, RefusesElements};

use crate::element_shape::ElementShape;
use crate::elements::boxed_elements;
use crate::fault::{DONE, Fault};
use crate::handle::Handle;
use crate::object::Object;
use std::alloc::Global;

/// Puts the elements of a set of one generation into a handle: of a control's last generation, or of the one that a reader holds.
/// What that handle held ends. `count` gets how many elements there are.
pub fn elements_of(
    alloc: Global,
    handle: &mut Handle,
    set: u32,
    elements: &mut Handle,
    count: &mut u64,
) -> u32
    ensures same { handle.new.held ≡ handle.old.held }
    ensures done { result ≡ 0 → HasElements handle.old.held set elements.new.held count.new }
    ensures unchanged { 0 < result → (elements.new.held ≡ elements.old.held) × (count.new ≡ count.old) }
    ensures refused { 0 < result → IsRefusal (RefusesElements set) handle.old.held result }
{
    let Some(boxed) = handle.take(alloc) else {
        return Fault::Empty.code();
    };
    let outcome = boxed_elements(alloc, &boxed, set);
    handle.put(boxed);
    match outcome {
        Ok((made, many)) => {
            elements.put(made);
            *count = many;
            DONE
        }
        Err(fault) => fault.code(),
    }
}

/// Writes the bounds and the comment of the element at a place over the front of a buffer each. `shape` gets the rest of it, also
/// if a buffer has no room.
pub fn element_at(
    alloc: Global,
    elements: &mut Handle,
    place: u64,
    bounds: &mut [u8],
    comment: &mut [u8],
    shape: &mut ElementShape,
) -> u32
    ensures same { elements.new.held ≡ elements.old.held }
    ensures done { result ≡ 0 → HasElement elements.old.held place bounds.old bounds.new comment.old comment.new shape.new }
    ensures unchanged { 0 < result → (bounds.new ≡ bounds.old) × (comment.new ≡ comment.old) }
    ensures refused { 0 < result → IsRefusal (RefusesElement place (length bounds.old) (length comment.old) shape.new) elements.old.held result }
{
    let Some(mut boxed) = elements.take(alloc) else {
        return Fault::Empty.code();
    };
    let outcome = element_in(&mut boxed, place, bounds, comment, shape);
    elements.put(boxed);
    match outcome {
        Ok(()) => DONE,
        Err(fault) => fault.code(),
    }
}

fn element_in(
    object: &mut Object,
    place: u64,
    bounds: &mut [u8],
    comment: &mut [u8],
    shape: &mut ElementShape,
) -> Result<(), Fault>
    ensures same { object.new ≡ object.old }
    ensures ok { OnOk result (HasElement (Some object.old) place bounds.old bounds.new comment.old comment.new shape.new) }
    ensures err { OnErr result ((bounds.new ≡ bounds.old) × (comment.new ≡ comment.old)) }
    ensures refused { IfErr result (RefusesElement place (length bounds.old) (length comment.old) shape.new object.old) }
{
    match object {
        Object::Elements(elements) => elements.write(place, bounds, comment, shape),
        Object::Control(_) | Object::Reader(_) => Err(Fault::Handle),
    }
}
