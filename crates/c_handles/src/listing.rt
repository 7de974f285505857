//! Listings of a control's last generation.
ghost use Rattle.std.specs.Prelude.{◌≡◌, ◌<◌, ◌≤◌, ◌++◌, length, drop, IfOk, IfErr};
ghost use Rattle.c_handles.specs.Listing.{IsListing, RefusesListing, HasListed, IsRefusedListing};

use crate::fault::{DONE, Fault};
use crate::front::write_front;
use crate::handle::Handle;
use crate::object::Object;
use gen_publish::Control;
use set_report::write_list;
use std::alloc::Global;

/// The last generation as a script.
fn text_of(alloc: Global, control: &Control, now: u64) -> Result<Vec<u8>, Fault>
    ensures ok { IfOk result (λ text. IsListing (Object.Control control.now) now text.items) }
    ensures refused { IfErr result (RefusesListing (Object.Control control.now)) }
{
    control.known();
    let mut text = Vec::new(alloc);
    match write_list(control.schema(), control.generation(), now, &mut text) {
        Ok(()) => Ok(text),
        Err(_) => Err(Fault::Memory),
    }
}

fn listing(alloc: Global, object: &Object, now: u64) -> Result<Vec<u8>, Fault>
    ensures ok { IfOk result (λ text. IsListing object.now now text.items) }
    ensures refused { IfErr result (RefusesListing object.now) }
{
    match object {
        Object::Control(control) => text_of(alloc, control, now),
        Object::Reader(_) | Object::Elements(_) => Err(Fault::Handle),
    }
}

/// Writes the control's last generation as a script over the front of a buffer. An element that expires has the time from
/// `now` to its expiry. `written` gets the length of the text, also if the buffer has no room for it; then nothing is written.
pub fn list_into(
    alloc: Global,
    control: &mut Handle,
    now: u64,
    buffer: &mut [u8],
    written: &mut u64,
) -> u32
    ensures same { control.new.held ≡ control.old.held }
    ensures done { result ≡ 0 → HasListed control.old.held now buffer.old buffer.new written.new }
    ensures unchanged { 0 < result → buffer.new ≡ buffer.old }
    ensures refused { 0 < result → IsRefusedListing control.old.held now (length buffer.old) result written.new }
{
    let Some(boxed) = control.take(alloc) else {
        return Fault::Empty.code();
    };
    let outcome = listing(alloc, &boxed, now);
    control.put(boxed);
    match outcome {
        Ok(text) => {
            *written = text.len() as u64;
            if buffer.len() < text.len() {
                return Fault::Room.code();
            }
            write_front(buffer, text.as_slice());
            DONE
        }
        Err(fault) => fault.code(),
    }
}
