ghost use Rattle.std.specs.Prelude.{◌||◌, ◌≡◌, ◌<◌, ◌≤◌, ◌^◌, length, map, All, IfOk, OnOk, Some};
ghost use Rattle.std.specs.List.{list_any};
ghost use Rattle.set_model.specs.Control.{is_refusal as refuses};
ghost use Rattle.set_model.specs.Runnable.{IsFitting, IsRunnableStep};
ghost use Rattle.set_space.specs.Open.{CanBeBuilt};
ghost use Rattle.packet_pool.specs.Work.{AllReady};
ghost use Rattle.script_run.specs.Telling.{IsAtStart, TellsSection};

use crate::teller::Teller;
use gen_publish::{Control, Reader};
use packet_pool::{Gate, count_commits, run_section};
use script_laws::{Output, add_refusals, has_numbers, start_run, tells_refusal};
use set_model::{Event, Memory, Packets, Schema, Steps};
use set_report::write_events;
use std::alloc::Global;
use std::thread::Threads;

/// A run in progress: its control, its readers, and what is written so far.
#[derive(Drop)]
pub struct Telling {
    /// The control after the sections so far.
    pub control: Control,
    /// The packet threads' readers, by their numbers.
    pub readers: Vec<Option<Reader>>,
    /// How many packets have lines so far.
    pub packets: u64,
    /// What is written so far.
    pub output: Output,
}

/// Whether a refusal was reported before, or is among these events.
fn tells_more(before: bool, events: &[Event]) -> bool
    ensures { result ≡ (before || list_any refuses events.now) }
{
    before || tells_refusal(events)
}

/// The readers, each at its place.
fn at_places(alloc: Global, readers: Vec<Reader>) -> Result<Vec<Option<Reader>>, Memory>
    ensures { IfOk result (λ v. v.items ≡ map Some readers.items) }
{
    let mut all = Vec::new(alloc);
    for reader in readers {
        all.push(Some(reader))?;
    }
    Ok(all)
}

impl Telling {
    /// A run before its first step.
    pub fn new(alloc: Global, schema: &Schema, threads: u32) -> Result<Telling, Memory>
        requires threads { (0 < threads) × (threads ≤ 16) }
        requires sets { All CanBeBuilt schema.now }
        requires few_sets { length schema.now ≤ 2 ^ 32 }
        ensures { IfOk result (λ t. IsAtStart schema.now threads t) }
    {
        let (control, readers) = start_run(alloc, schema, threads)?;
        let all = at_places(alloc, readers)?;
        Ok(Telling {
            control,
            readers: all,
            packets: 0,
            output: Output::new(alloc),
        })
    }

    /// Does the steps of a section beside its packets. Writes the events of the steps, and then the
    /// packets' lines.
    pub fn do_section<R: Threads + Sync, J: Teller, G: Gate>(
        &mut self,
        rt: &R,
        alloc: Global,
        steps: &Steps,
        packets: &Packets,
        keep_going: bool,
        judge: &J,
        gate: &G,
    ) -> Result<(), Memory>
        requires judge { J.serves judge.now self.old.control.schema }
        requires readers { (0 < length self.old.readers.items) × (length self.old.readers.items ≤ 16) × AllReady self.old.control self.old.readers.items }
        requires steps { All (IsRunnableStep self.old.control.schema) steps.now }
        requires packets { All (IsFitting self.old.control.schema) packets.now }
        ensures { OnOk result (TellsSection (J.verdict judge.now) (J.packets_text judge.now) keep_going steps.now packets.now self.old self.new) }
    {
        let first = self.packets;
        let Some(end) = first.checked_add(packets.len()) else {
            return Err(Memory);
        };
        if !has_numbers(&self.control, count_commits(steps)) {
            return Err(Memory);
        }
        self.control.known();
        let section = run_section(
            rt,
            alloc,
            &mut self.control,
            steps,
            keep_going,
            &mut self.readers,
            packets,
            first,
            judge,
            gate,
        )?;
        self.control.known();
        let text = &mut self.output.text;
        write_events(self.control.schema(), &section.events, b"", text)?;
        judge.write(&section.lines, text)?;
        let events = section.events.as_slice();
        add_refusals(0, events, &mut self.output.refusals)?;
        self.output.refused = tells_more(self.output.refused, events);
        self.packets = end;
        Ok(())
    }
}
