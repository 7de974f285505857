//! A control that has committed a workload's elements, its readers, and packets for them.
ghost use Rattle.std.specs.Prelude.{◌≡◌, ◌<◌, ◌≤◌, length, map, All, IfOk, IsTrue, Some, OnOk};
ghost use Rattle.set_model.specs.Runnable.{IsFitting, IsRunnableStep};
ghost use Rattle.set_space.specs.Open.{CanBeBuilt};
ghost use Rattle.packet_pool.specs.Running.{HasNumbers};
ghost use Rattle.reader_speed.specs.Ready.{AreReadersReady};

use crate::fault::Fault;
use crate::workload::Workload;
use gen_publish::{Control, Reader, start};
use packet_pool::{Gate, LookupJudge, OpenGate, count_commits, run_section};
use set_model::{
    Duplicate, Family, Key, Kinds, Memory, Name, NewElement, Packet, Packets, Schema, SetDecl,
    Step, Steps, Verb, fits, parts_fit,
};
use std::alloc::Global;
use std::thread::Threads;

/// The measurements never need more generations or packets than this.
const NUMBERS: u64 = 1 << 62;

/// A control, a reader for each thread, and packets of the only set, ready for a section.
#[derive(Drop)]
pub(crate) struct Course {
    pub(crate) control: Control,
    pub(crate) readers: Vec<Option<Reader>>,
    pub(crate) packets: Packets,
}

/// One set of these kinds.
fn schema_of(alloc: Global, kinds: &Kinds) -> Result<Schema, Memory>
    requires { (0 < length kinds.now) × (length kinds.now ≤ 16) }
    ensures built { IfOk result (All CanBeBuilt) }
    ensures one { IfOk result (λ schema. length schema ≡ 1) }
{
    let mut schema = Schema::new(alloc);
    schema.push(SetDecl {
        family: Family::Ip,
        table: Name::new(alloc),
        name: Name::new(alloc),
        kinds: kinds.copy(alloc)?,
        interval: true,
        timed: false,
        disjoint: false,
        timeout: None,
        size: None,
    })?;
    Ok(schema)
}

/// The addition of an element.
fn addition(alloc: Global, schema: &Schema, element: &NewElement) -> Result<Step, Fault>
    requires { length schema.now ≡ 1 }
    ensures { IfOk result (IsRunnableStep schema.now) }
{
    if !parts_fit(&schema.at(0).kinds, &element.parts) {
        return Err(Fault::Workload);
    }
    Ok(Step::Change {
        line: 1,
        set: 0,
        verb: Verb::Add,
        element: element.copy(alloc)?,
        now: 0,
    })
}

/// Adds the elements, and commits.
fn additions(alloc: Global, schema: &Schema, elements: &[NewElement]) -> Result<Steps, Fault>
    requires { length schema.now ≡ 1 }
    ensures { IfOk result (All (IsRunnableStep schema.now)) }
{
    let mut steps = Steps::new(alloc);
    for element in elements {
        steps.push(addition(alloc, schema, element)?)?;
    }
    steps.push(Step::Commit { now: 0 })?;
    Ok(steps)
}

fn packet(alloc: Global, schema: &Schema, key: &Key) -> Result<Packet, Fault>
    requires { length schema.now ≡ 1 }
    ensures { IfOk result (IsFitting schema.now) }
{
    if !fits(&schema.at(0).kinds, key) {
        return Err(Fault::Workload);
    }
    Ok(Packet {
        set: 0,
        key: key.copy(alloc)?,
        now: 0,
    })
}

/// `count` packets, which go through the keys again and again.
fn packets(alloc: Global, schema: &Schema, keys: &[Key], count: usize) -> Result<Packets, Fault>
    requires schema { length schema.now ≡ 1 }
    requires keys { 0 < length keys.now }
    ensures { IfOk result (All (IsFitting schema.now)) }
{
    let mut packets = Packets::new(alloc);
    for k in 0..count {
        packets.push(packet(alloc, schema, &keys[k % keys.len()])?)?;
    }
    Ok(packets)
}

/// The readers, each at its place.
fn at_places(alloc: Global, readers: Vec<Reader>) -> Result<Vec<Option<Reader>>, Memory>
    ensures { IfOk result (λ v. v.items ≡ map Some readers.items) }
{
    let mut places = Vec::new(alloc);
    for reader in readers {
        places.push(Some(reader))?;
    }
    Ok(places)
}

/// Whether there are numbers for one generation per commit.
pub(crate) fn is_numbered(control: &Control, steps: &Steps) -> bool
    ensures { IsTrue result → HasNumbers control.now steps.now }
{
    control.number() < NUMBERS && count_commits(steps) < NUMBERS
}

impl Course {
    /// A control that has committed the workload's elements in generation 1, with its readers and
    /// packets.
    pub(crate) fn new<R: Threads + Sync>(
        rt: &R,
        alloc: Global,
        workload: &Workload,
        threads: u32,
        count: usize,
    ) -> Result<Course, Fault>
        requires { (0 < threads) × (threads ≤ 16) }
        ensures { IfOk result (λ c. AreReadersReady c.control c.readers.items c.packets) }
    {
        let mut course = Course::started(alloc, &workload.kinds, threads)?;
        course.prepare(rt, alloc, workload, count)?;
        Ok(course)
    }

    /// A control of a set of these kinds in generation 0, with its readers and no packets.
    fn started(alloc: Global, kinds: &Kinds, threads: u32) -> Result<Course, Fault>
        requires { (0 < threads) × (threads ≤ 16) }
        ensures ready { IfOk result (λ c. AreReadersReady c.control c.readers.items c.packets) }
        ensures one { IfOk result (λ c. length c.control.schema ≡ 1) }
    {
        if kinds.len() == 0 || 16 < kinds.len() {
            return Err(Fault::Workload);
        }
        let (control, readers) = start(alloc, schema_of(alloc, kinds)?, threads)?;
        Ok(Course {
            control,
            readers: at_places(alloc, readers)?,
            packets: Packets::new(alloc),
        })
    }

    /// Commits the workload's elements, and makes so many packets of its keys.
    fn prepare<R: Threads + Sync>(
        &mut self,
        rt: &R,
        alloc: Global,
        workload: &Workload,
        count: usize,
    ) -> Result<(), Fault>
        requires ready { AreReadersReady self.old.control self.old.readers.items self.old.packets }
        requires one { length self.old.control.schema ≡ 1 }
        ensures { OnOk result (AreReadersReady self.new.control self.new.readers.items self.new.packets) }
    {
        if workload.keys.is_empty() {
            return Err(Fault::Workload);
        }
        let steps = additions(alloc, self.control.schema(), workload.elements.as_slice())?;
        self.section(rt, alloc, &steps, &OpenGate)?;
        self.packets = packets(
            alloc,
            self.control.schema(),
            workload.keys.as_slice(),
            count,
        )?;
        Ok(())
    }

    /// Does the steps beside all packets.
    pub(crate) fn section<R: Threads + Sync, G: Gate>(
        &mut self,
        rt: &R,
        alloc: Global,
        steps: &Steps,
        gate: &G,
    ) -> Result<(), Fault>
        requires ready { AreReadersReady self.old.control self.old.readers.items self.old.packets }
        requires steps { All (IsRunnableStep self.old.control.schema) steps.now }
        ensures ready { OnOk result (AreReadersReady self.new.control self.new.readers.items self.new.packets) }
        ensures schema { OnOk result (self.new.control.schema ≡ self.old.control.schema) }
    {
        if !is_numbered(&self.control, steps) || self.packets.len() >= NUMBERS {
            return Err(Fault::Workload);
        }
        run_section(
            rt,
            alloc,
            &mut self.control,
            steps,
            true,
            &mut self.readers,
            &self.packets,
            0,
            &LookupJudge,
            gate,
        )?;
        Ok(())
    }
}
