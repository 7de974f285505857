//! A start by a script's text.
ghost use Rattle.std.specs.Prelude.{◌≡◌, ◌∷◌, ◌<◌, ◌≤◌, [], All, IfOk, IfErr, OnOk};
ghost use Rattle.set_model.specs.declared.script.Script.{Script as Meant};
ghost use Rattle.set_model.specs.Control.{first_generation};
ghost use Rattle.set_model.specs.Runnable.{EndsClosed, IsRunnable, IsRunnableStep};
ghost use Rattle.set_space.specs.Open.{opened};
ghost use Rattle.packet_pool.specs.Running.{IsSameStart};
ghost use Rattle.set_script.specs.ScriptText.{IsScriptText};
ghost use Rattle.script_start.specs.Scripted.{HasDone, HasReaders, IsStarted, RefusesSections, RefusesText};

use crate::error::{StartError, first_refusal};
use crate::meeting::all_met;
use crate::sections::do_sections;
use gen_publish::{Control, Reader, start};
use set_model::{Events, Script, Sections};
use set_script::{ScriptError, bad_token, read_script};
use std::alloc::Global;

/// A control and its readers, in the order of their numbers.
#[derive(Drop)]
pub struct Started {
    /// The control. No change is open.
    pub control: Control,
    /// The readers. They hold nothing.
    pub readers: Vec<Reader>,
}

/// Why a text that isn't a script is refused.
fn refusal_of(alloc: Global, text: &[u8]) -> StartError
    requires { (s : Meant) → IsScriptText text.now s → ⊥ }
    ensures { RefusesText text.now result }
{
    match bad_token(alloc, text) {
        Ok(Some(token)) => StartError::Bad(token),
        Ok(None) => unreachable!(),
        Err(_) => StartError::Memory,
    }
}

/// The script that a text means.
fn read(alloc: Global, text: &[u8]) -> Result<Script, StartError>
    ensures is_text { IfOk result (IsScriptText text.now) }
    ensures runnable { IfOk result IsRunnable }
    ensures refused { IfErr result (RefusesText text.now) }
{
    match read_script(alloc, text) {
        Ok(script) => Ok(script),
        Err(ScriptError::Memory) => Err(StartError::Memory),
        Err(ScriptError::Bad { .. }) => Err(refusal_of(alloc, text)),
    }
}

/// Does all sections of a script on a new control of its sets.
fn do_script(alloc: Global, control: &mut Control, sections: &Sections) -> Result<(), StartError>
    requires committed { control.old.committed ≡ first_generation control.old.schema ∷ [] }
    requires no_change { control.old.work ≡ opened (first_generation control.old.schema) }
    requires steps { All (All (IsRunnableStep control.old.schema)) sections.now }
    requires closed { All EndsClosed sections.now }
    ensures done { OnOk result (HasDone control.old.schema sections.now control.new) }
    ensures start { OnOk result (IsSameStart control.old control.new) }
    ensures refused { IfErr result (RefusesSections control.old.schema sections.now) }
{
    let mut events = Events::new(alloc);
    do_sections(alloc, control, sections, &mut events)?;
    match first_refusal(events.as_slice()) {
        Some(error) => Err(error),
        None => Ok(()),
    }
}

/// A control that did a script, and its readers.
fn start_done(alloc: Global, script: Script, readers: u32) -> Result<Started, StartError>
    requires count { (0 < readers) × (readers ≤ 16) }
    requires runnable { IsRunnable script }
    ensures done { IfOk result (λ started. HasDone script.schema script.sections started.control) }
    ensures readers { IfOk result (λ started. HasReaders readers started.control started.readers.items) }
    ensures refused { IfErr result (RefusesSections script.schema script.sections) }
{
    let Script {
        schema,
        sections,
        ..
    } = script;
    let (mut control, seated) = start(alloc, schema, readers)?;
    do_script(alloc, &mut control, &sections)?;
    let readers = all_met(alloc, &mut control, seated)?;
    Ok(Started { control, readers })
}

/// Makes a control of the sets that a script's text declares, and so many readers. The control has done all sections of the
/// script, one after another. Each reader has seen what it committed.
///
/// # Errors
///
/// `Bad` exactly if the text isn't a script and memory suffices, `Refused` exactly if it is one of which a change is refused
/// and memory suffices. `Memory` if it doesn't.
pub fn start_script(alloc: Global, text: &[u8], readers: u32) -> Result<Started, StartError>
    requires { (0 < readers) × (readers ≤ 16) }
    ensures started { IfOk result (λ started. IsStarted text.now readers started.control started.readers.items) }
    ensures refused { IfErr result (RefusesText text.now) }
{
    let script = match read(alloc, text) {
        Ok(script) => script,
        Err(error) => return Err(error),
    };
    match start_done(alloc, script, readers) {
        Ok(started) => Ok(started),
        Err(error) => Err(error),
    }
}
