//! The elements of a set, which a handle of their own holds.
ghost use Rattle.std.specs.Prelude.{◌≡◌, ◌<◌, ◌*◌, length, slice_get, Some, IfOk, IfErr, OnOk, OnErr};
ghost use Rattle.std.specs.Arc.{arc_value};
ghost use Rattle.packed_values.specs.Packed.{packed_length};
ghost use Rattle.c_handles.specs.Elements.{AreElementsOf, HasElements, IsHeldSet, IsShapeOf, IsWritten, RefusesElement, RefusesElements, RefusesSet, number_of_expiry as the_number_of_expiry};

use crate::element_shape::ElementShape;
use crate::fault::Fault;
use crate::front::write_front;
use crate::object::Object;
use gen_publish::{Control, Held};
use packed_values::{key_length, write_bounds};
use set_model::{Element, Kinds};
use set_space::{KeptSet, Sets};
use std::alloc::Global;
use std::marker::Model;
use std::sync::Arc;

/// The elements of a set of one generation, in the order of insertion. The generations that have the set share it.
#[derive(Drop)]
pub struct Elements {
    set: Arc<KeptSet, Global>,
    /// How many bytes the bounds of each element have.
    size: usize,
    /// The search for the next element begins here.
    near: u64,
}

impl Model for Elements {
    ghost use Rattle.std.specs.Prelude.{◌≡◌, ◌*◌};
    ghost use Rattle.std.specs.Arc.{arc_value};
    ghost use Rattle.set_model.specs.SetState.{State};
    ghost use Rattle.packed_values.specs.Packed.{packed_length};

    ghost Value = { State };

    ghost view = { λ e. arc_value e.set };

    ghost invariant = { λ e. e.size ≡ 2 * packed_length (arc_value e.set).kinds };
}

fn number_of_expiry(expiry: Option<u64>) -> u64
    ensures { result ≡ the_number_of_expiry expiry }
{
    match expiry {
        Some(moment) => moment,
        None => u64::MAX,
    }
}

fn shape_of(element: &Element, kinds: &Kinds, bounds: usize) -> ElementShape
    requires { bounds ≡ 2 * packed_length kinds.now }
    ensures { IsShapeOf kinds.now element.now result }
{
    ElementShape {
        id: element.id,
        expiry: number_of_expiry(element.expiry),
        bounds_length: bounds as u64,
        comment_length: element.comment.len(),
    }
}

impl Elements {
    fn of(set: Arc<KeptSet, Global>) -> Result<Elements, Fault>
        ensures elements { IfOk result (λ elements. elements ≡ arc_value set) }
        ensures memory { IfErr result (λ fault. fault ≡ Fault.Memory) }
    {
        let Some(key) = key_length(set.kinds().as_slice()) else {
            return Err(Fault::Memory);
        };
        let Some(size) = key.checked_mul(2) else {
            return Err(Fault::Memory);
        };
        Ok(Elements { set, size, near: 0 })
    }

    /// The elements of a set of a generation.
    fn of_set(sets: &Sets, set: u32) -> Result<Elements, Fault>
        requires { set < length sets.now }
        ensures ok { IfOk result (λ elements. slice_get sets.now set ≡ Some elements) }
        ensures memory { IfErr result (λ fault. fault ≡ Fault.Memory) }
    {
        match sets.share(u64::from(set)) {
            Ok(shared) => Elements::of(shared),
            Err(_) => Err(Fault::Memory),
        }
    }

    /// The elements of a set of the control's last generation.
    fn of_last(control: &Control, set: u32) -> Result<Elements, Fault>
        ensures ok { IfOk result (λ elements. slice_get control.now.work.base.sets set ≡ Some elements) }
        ensures declared { OnOk result (set < length control.now.schema) }
        ensures refused { IfErr result (RefusesSet (length control.now.schema) set) }
    {
        control.known();
        if control.schema().len() <= u64::from(set) {
            return Err(Fault::Set);
        }
        Elements::of_set(&control.generation().sets, set)
    }

    /// The elements of a set of the generation that a reader holds.
    pub(crate) fn of_held(held: &Held, set: u32) -> Result<Elements, Fault>
        ensures ok { IfOk result (IsHeldSet held.now set) }
        ensures declared { OnOk result (set < length held.now.schema) }
        ensures refused { IfErr result (RefusesSet (length held.now.schema) set) }
    {
        let sets = held.sets();
        if sets.len() <= u64::from(set) {
            return Err(Fault::Set);
        }
        Elements::of_set(sets, set)
    }

    /// How many elements there are.
    pub(crate) fn len(&self) -> u64
        ensures { result ≡ length self.now.elements }
    {
        self.set.len()
    }

    /// Writes the bounds and the comment of the element at a place over the front of a buffer each. `shape` gets the rest of it,
    /// also if a buffer has no room.
    pub(crate) fn write(
        &mut self,
        place: u64,
        bounds: &mut [u8],
        comment: &mut [u8],
        shape: &mut ElementShape,
    ) -> Result<(), Fault>
        ensures same { self.new ≡ self.old }
        ensures ok { OnOk result (IsWritten self.old place bounds.old bounds.new comment.old comment.new shape.new) }
        ensures err { OnErr result ((bounds.new ≡ bounds.old) × (comment.new ≡ comment.old)) }
        ensures refused { IfErr result (RefusesElement place (length bounds.old) (length comment.old) shape.new (Object.Elements self.old)) }
    {
        if self.set.len() <= place {
            return Err(Fault::Place);
        }
        let element = self.set.element(place, &mut self.near);
        *shape = shape_of(element, self.set.kinds(), self.size);
        let text = element.comment.as_slice();
        if bounds.len() < self.size || comment.len() < text.len() {
            return Err(Fault::Room);
        }
        let kinds = self.set.kinds().as_slice();
        write_bounds(kinds, element.parts.as_slice(), &mut bounds[..self.size]);
        write_front(comment, text);
        Ok(())
    }
}

/// The elements of a control's last generation, or of the one that a reader holds.
fn elements_from(object: &Object, set: u32) -> Result<Elements, Fault>
    ensures ok { IfOk result (AreElementsOf object.now set) }
    ensures declared { OnOk result (RefusesElements set object.now Fault.Memory) }
    ensures refused { IfErr result (RefusesElements set object.now) }
{
    match object {
        Object::Control(control) => Elements::of_last(control, set),
        Object::Reader(seat) => seat.elements(set),
        Object::Elements(_) => Err(Fault::Handle),
    }
}

/// The same as a box, and how many there are.
pub(crate) fn boxed_elements(
    alloc: Global,
    object: &Object,
    set: u32,
) -> Result<(Box<Object>, u64), Fault>
    ensures ok { IfOk result (λ made. HasElements (Some object.now) set (Some made.0.value) made.1) }
    ensures refused { IfErr result (RefusesElements set object.now) }
{
    let elements = match elements_from(object, set) {
        Ok(elements) => elements,
        Err(fault) => return Err(fault),
    };
    let count = elements.len();
    let Ok(boxed) = Box::new(alloc, Object::Elements(elements)) else {
        return Err(Fault::Memory);
    };
    Ok((boxed, count))
}
