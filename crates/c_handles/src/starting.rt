//! How the handles get what they hold, and how that ends.
ghost use Rattle.std.specs.Prelude.{◌≡◌, ◌<◌, length, map, All, Some, None, IfOk, IfErr};
ghost use Rattle.c_handles.specs.Starting.{HasStarted, IsOf, seated};
ghost use Rattle.c_handles.specs.StartCauses.{RefusesStart, IsRefusedStart};

use crate::fault::{DONE, Fault};
use crate::handle::Handle;
use crate::key_room::key_rooms;
use crate::object::Object;
use crate::seat::Seat;
use crate::shapes::{SetShape, describe_sets, schema_of};
use gen_publish::{Control, Reader, start as start_all};
use set_model::{Memory, Schema};
use std::alloc::Global;

/// What the handles of a start get: the control's box, and one for each reader.
#[derive(Drop)]
pub(crate) struct Boxes {
    pub(crate) control: Box<Object>,
    pub(crate) readers: Vec<Box<Object>>,
}

/// The box of a reader.
fn seat_one(alloc: Global, schema: &Schema, reader: Reader) -> Result<Box<Object>, Memory>
    requires { IsOf schema.now reader }
    ensures { IfOk result (λ boxed. boxed.value ≡ seated reader) }
{
    let rooms = key_rooms(alloc, schema)?;
    Ok(Box::new(alloc, Object::Reader(Seat::new(reader, rooms)))?)
}

/// A box for each reader.
fn seat_all(
    alloc: Global,
    schema: &Schema,
    readers: Vec<Reader>,
) -> Result<Vec<Box<Object>>, Memory>
    requires { All (IsOf schema.now) readers.items }
    ensures { IfOk result (λ boxes. map (λ b. b.value) boxes.items ≡ map seated readers.items) }
{
    let mut boxes = Vec::new(alloc);
    'readers: for reader in readers {
        boxes.push(seat_one(alloc, schema, reader)?)?;
    }
    Ok(boxes)
}

/// The boxes of a control and its readers.
///
/// # Errors
///
/// `Memory` if there is none left.
pub(crate) fn boxed(alloc: Global, control: Control, readers: Vec<Reader>) -> Result<Boxes, Memory>
    requires { All (IsOf control.schema) readers.items }
    ensures control { IfOk result (λ boxes. boxes.control.value ≡ Object.Control control) }
    ensures readers { IfOk result (λ boxes. map (λ b. b.value) boxes.readers.items ≡ map seated readers.items) }
{
    let readers = seat_all(alloc, control.schema(), readers)?;
    let control = Box::new(alloc, Object::Control(control))?;
    Ok(Boxes { control, readers })
}

/// Puts the boxes into the handles, of which there is one for each reader. What these held ends.
pub(crate) fn hand_out(boxes: Boxes, control: &mut Handle, readers: &mut [Handle])
    requires { length boxes.readers.items ≡ length readers.old }
    ensures control { control.new.held ≡ Some boxes.control.value }
    ensures readers { map (λ h. h.held) readers.new ≡ map (λ b. Some b.value) boxes.readers.items }
{
    let Boxes {
        control: whole,
        readers: seats,
    } = boxes;
    control.put(whole);
    seat_in(seats, readers);
}

/// Puts a box into each handle.
fn seat_in(seats: Vec<Box<Object>>, readers: &mut [Handle])
    requires { length seats.items ≡ length readers.old }
    ensures { map (λ h. h.held) readers.new ≡ map (λ b. Some b.value) seats.items }
{
    let mut seats = seats;
    'readers: for handle in readers.iter_mut() {
        handle.put(seats.remove(0));
    }
}

/// A control over these sets, and so many readers.
fn make(alloc: Global, sets: &[SetShape], readers: usize) -> Result<Boxes, Fault>
    ensures made { IfOk result (λ boxes. HasStarted sets.now (Some boxes.control.value) (map (λ b. Some b.value) boxes.readers.items)) }
    ensures count { IfOk result (λ boxes. length boxes.readers.items ≡ readers) }
    ensures refused { IfErr result (RefusesStart sets.now readers) }
{
    if readers == 0 || 16 < readers {
        return Err(Fault::Readers);
    }
    if !describe_sets(sets) {
        return Err(Fault::Schema);
    }
    let schema = schema_of(alloc, sets)?;
    let (control, seated) = start_all(alloc, schema, readers as u32)?;
    Ok(boxed(alloc, control, seated)?)
}

/// Makes a control at generation 0, in which these sets are empty, and a reader for each of the other handles. What the
/// handles held ends.
///
/// The numbers of its refusals: those of `Readers` if there aren't 1 to 16 handles for readers, and of `Schema` if a struct
/// describes no set. The first that applies counts, and then `Memory`.
pub fn start(alloc: Global, sets: &[SetShape], control: &mut Handle, readers: &mut [Handle]) -> u32
    ensures done { result ≡ 0 → HasStarted sets.now control.new.held (map (λ h. h.held) readers.new) }
    ensures unchanged { 0 < result → (control.new ≡ control.old) × (readers.new ≡ readers.old) }
    ensures refused { 0 < result → IsRefusedStart sets.now (length readers.old) result }
{
    match make(alloc, sets, readers.len()) {
        Ok(boxes) => {
            hand_out(boxes, control, readers);
            DONE
        }
        Err(fault) => fault.code(),
    }
}

/// Ends what the handle holds, and leaves it empty. An empty one stays so.
pub fn free(alloc: Global, handle: &mut Handle)
    ensures { handle.new.held ≡ None }
{
    drop(handle.take(alloc));
}
