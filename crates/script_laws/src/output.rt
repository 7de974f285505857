ghost use Rattle.std.specs.Prelude.{◌≡◌, [], false, None, All, length, IfOk};
ghost use Rattle.std.specs.List.{list_any};
ghost use Rattle.set_model.specs.Control.{is_refusal};
ghost use Rattle.set_report.specs.Remarks.{remarks_text};
ghost use Rattle.set_report.specs.Writes.{NamesSet};
ghost use Rattle.script_laws.specs.Reports.{has_failed as last_failed, refusals_in};

use crate::refusals::{Refusal, add_refusals, has_failed, tells_refusal};
use set_model::{Events, Memory, Schema, Script};
use set_report::write_remarks;
use std::alloc::Global;

/// What a command writes. For a note to a person it also has the refused changes and the script, as data.
#[derive(Drop)]
pub struct Output {
    /// The text that is written.
    pub text: Vec<u8>,
    /// Whether it reports a refused change.
    pub refused: bool,
    /// The refused changes, in the order in which they were refused.
    pub refusals: Vec<Refusal>,
    /// Whether it shows the generation before a last transaction that failed.
    pub failed: bool,
    /// The script that was run, with its steps in the order in which they were done. Each refusal is of a step of it.
    pub script: Option<Script>,
}

impl Output {
    /// An output before anything is written. It takes no memory.
    pub fn new(alloc: Global) -> Output
        ensures text { result.text.items ≡ [] }
        ensures refused { result.refused ≡ false }
        ensures refusals { result.refusals.items ≡ [] }
        ensures failed { result.failed ≡ false }
        ensures script { result.script ≡ None }
    {
        Output {
            text: Vec::new(alloc),
            refused: false,
            refusals: Vec::new(alloc),
            failed: false,
            script: None,
        }
    }

    /// The events of a control that ran alone, as comments: the first lines of what shows its last generation.
    ///
    /// # Errors
    ///
    /// `Memory` if memory runs out.
    pub fn with_remarks(alloc: Global, schema: &Schema, events: &Events) -> Result<Output, Memory>
        requires { All (NamesSet (length schema.now)) events.now }
        ensures text { IfOk result (λ out. out.text.items ≡ remarks_text schema.now events.now) }
        ensures refused { IfOk result (λ out. out.refused ≡ list_any is_refusal events.now) }
        ensures refusals { IfOk result (λ out. out.refusals.items ≡ refusals_in 0 events.now) }
        ensures failed { IfOk result (λ out. out.failed ≡ last_failed events.now) }
    {
        let mut output = Output::new(alloc);
        write_remarks(schema, events, &mut output.text)?;
        let events = events.as_slice();
        add_refusals(0, events, &mut output.refusals)?;
        output.refused = tells_refusal(events);
        output.failed = has_failed(events);
        Ok(output)
    }
}
