//! How the handles get what a script's text starts.
ghost use Rattle.std.specs.Prelude.{◌≡◌, ◌<◌, ◌≤◌, length, map, Some, IfOk, IfErr};
ghost use Rattle.script_start.specs.Scripted.{RefusesText};
ghost use Rattle.c_handles.specs.Scripting.{HasScripted, IsRefusedText};

use crate::fault::{DONE, Fault};
use crate::handle::Handle;
use crate::script_fault::{ScriptFault, fault_of_start};
use crate::starting::{Boxes, boxed, hand_out};
use script_start::{StartError, Started, start_script as start_by_text};
use std::alloc::Global;

/// A control that did a script, and so many readers.
fn make(alloc: Global, text: &[u8], readers: u32) -> Result<Boxes, StartError>
    requires { (0 < readers) × (readers ≤ 16) }
    ensures made { IfOk result (λ boxes. HasScripted text.now (Some boxes.control.value) (map (λ b. Some b.value) boxes.readers.items)) }
    ensures count { IfOk result (λ boxes. length boxes.readers.items ≡ readers) }
    ensures refused { IfErr result (RefusesText text.now) }
{
    let Started { control, readers } = match start_by_text(alloc, text, readers) {
        Ok(started) => started,
        Err(error) => return Err(error),
    };
    Ok(boxed(alloc, control, readers)?)
}

/// Makes a control of the sets that a script's text declares, which has done all sections of the script, and a reader for
/// each of the other handles. Each reader has seen what is committed. What the handles held ends.
///
/// The numbers of its refusals: that of `Readers` if there aren't 1 to 16 handles for readers. Then that of `Script` if the
/// text isn't a script, and that of `Change` if a change is refused; `place` has the place then. Or that of `Memory`.
pub fn start_script(
    alloc: Global,
    text: &[u8],
    control: &mut Handle,
    readers: &mut [Handle],
    place: &mut ScriptFault,
) -> u32
    ensures done { result ≡ 0 → HasScripted text.now control.new.held (map (λ h. h.held) readers.new) }
    ensures unchanged { 0 < result → (control.new ≡ control.old) × (readers.new ≡ readers.old) }
    ensures refused { 0 < result → IsRefusedText text.now (length readers.old) result place.new }
{
    if readers.is_empty() || 16 < readers.len() {
        *place = ScriptFault::none();
        return Fault::Readers.code();
    }
    match make(alloc, text, readers.len() as u32) {
        Ok(boxes) => {
            hand_out(boxes, control, readers);
            DONE
        }
        Err(error) => {
            *place = ScriptFault::of(error);
            fault_of_start(error).code()
        }
    }
}
