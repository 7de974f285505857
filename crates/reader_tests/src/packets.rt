//! Sections: a control's steps beside packets.
ghost use Rattle.std.specs.Prelude.{◌≡◌, ◌<◌, ◌≤◌, length, map, All, IfOk, OnOk, Some};
ghost use Rattle.set_model.specs.Runnable.{IsRunnableStep, IsFitting};
ghost use Rattle.packet_pool.specs.Running.{HasNumbers};
ghost use Rattle.packet_pool.specs.Work.{AllReady};

use crate::asserts::same;
use crate::fixture::{addition, one_set};
use gen_publish::{Control, Held, Reader, start};
use packet_pool::{Judge, LookupJudge, OpenGate, SectionResult, run_section, run_steps};
use set_model::{
    Event, Events, Key, Line, Memory, Packet, Packets, Schema, Step, Steps, Verdict, Why, fits,
};
use std::alloc::Global;
use std::process::Abort;
use std::test::Fail;
use std::thread::Threads;

/// Decides on every packet by the number of the held generation.
struct NumberJudge;

impl Judge for NumberJudge {
    ghost use Rattle.set_model.specs.declared.packet.Verdict.TheVariants.{Element};

    ghost verdict = { λ _ g _. Element g.number };

    ghost serves = { λ _ _. Unit {0} };

    fn judge(&self, held: &mut Held, _packet: &Packet) -> Verdict {
        Verdict::Element {
            id: held.generation(),
        }
    }
}

/// Adds port 80, and commits.
fn steps(alloc: Global, schema: &Schema) -> Result<Steps, Memory>
    requires { length schema.now ≡ 1 }
    ensures steps { IfOk result (All (IsRunnableStep schema.now)) }
    ensures two { IfOk result (λ steps. length steps ≡ 2) }
{
    let mut steps = Steps::new(alloc);
    steps.push(addition(alloc, schema, 80, 80)?)?;
    steps.push(Step::Commit { now: 0 })?;
    Ok(steps)
}

fn packet(alloc: Global, schema: &Schema) -> Result<Packet, Memory>
    requires { length schema.now ≡ 1 }
    ensures { IfOk result (IsFitting schema.now) }
{
    let mut key = Key::new(alloc);
    key.push(80)?;
    if !fits(&schema.at(0).kinds, &key) {
        return Err(Memory);
    }
    Ok(Packet {
        set: 0,
        key,
        now: 0,
    })
}

fn packets(alloc: Global, schema: &Schema, count: u64) -> Result<Packets, Memory>
    requires { length schema.now ≡ 1 }
    ensures packets { IfOk result (All (IsFitting schema.now)) }
    ensures count { IfOk result (λ packets. length packets ≡ count) }
{
    let mut packets = Packets::new(alloc);
    for _ in 0..count {
        packets.push(packet(alloc, schema)?)?;
    }
    Ok(packets)
}

fn at_places(alloc: Global, readers: Vec<Reader>) -> Result<Vec<Option<Reader>>, Memory>
    ensures { IfOk result (λ v. v.items ≡ map Some readers.items) }
{
    let mut places = Vec::new(alloc);
    for reader in readers {
        places.push(Some(reader))?;
    }
    Ok(places)
}

/// A control, its readers, steps and packets: all that a section needs.
#[derive(Drop)]
struct Prepared {
    control: Control,
    readers: Vec<Option<Reader>>,
    steps: Steps,
    packets: Packets,
}

#[tactic(auto, using(packet_pool::proofs::RunLaws::few_commits))]
fn prepare(alloc: Global, threads: u32, count: u64) -> Result<Prepared, Memory>
    requires { (0 < threads) × (threads ≤ 16) }
    ensures ready { IfOk result (λ d. (length d.readers.items ≡ threads) × AllReady d.control d.readers.items) }
    ensures steps { IfOk result (λ d. All (IsRunnableStep d.control.schema) d.steps) }
    ensures numbers { IfOk result (λ d. HasNumbers d.control d.steps) }
    ensures packets { IfOk result (λ d. All (IsFitting d.control.schema) d.packets × (length d.packets ≡ count)) }
{
    let (control, readers) = start(alloc, one_set(alloc, None)?, threads)?;
    let mut given = Prepared {
        control,
        readers: at_places(alloc, readers)?,
        steps: Steps::new(alloc),
        packets: Packets::new(alloc),
    };
    given.fill(alloc, count)?;
    Ok(given)
}

impl Prepared {
    /// Sets the steps, and so many packets.
    fn fill(&mut self, alloc: Global, count: u64) -> Result<(), Memory>
        requires { length self.old.control.schema ≡ 1 }
        ensures kept { OnOk result ((self.new.control ≡ self.old.control) × (self.new.readers.items ≡ self.old.readers.items)) }
        ensures steps { OnOk result (All (IsRunnableStep self.old.control.schema) self.new.steps × (length self.new.steps ≡ 2)) }
        ensures packets { OnOk result (All (IsFitting self.old.control.schema) self.new.packets × (length self.new.packets ≡ count)) }
    {
        self.steps = steps(alloc, self.control.schema())?;
        self.packets = packets(alloc, self.control.schema(), count)?;
        Ok(())
    }
}

/// Asserts that each line is its packet's, with its generation's number as the decision.
fn assert_numbers(rt: &impl Abort, lines: &[Line]) {
    for (p, line) in lines.iter().enumerate() {
        same(rt, line.packet, 100 + p as u64);
        assert!(rt; line.thread < 2 && line.generation < 2);
        assert!(rt;
            line.verdict
                == Verdict::Element {
                    id: line.generation
                }
        );
    }
}

/// Asserts that each line has generation 1 and element 0.
fn assert_found(rt: &impl Abort, lines: &[Line]) {
    for line in lines {
        same(rt, line.generation, 1);
        assert!(rt; line.verdict == Verdict::Element { id: 0 });
    }
}

/// Decides on 33 packets beside a commit, each by its generation's number.
fn beside_commit<R: Threads + Abort + Sync>(
    rt: &R,
    alloc: Global,
    given: &mut Prepared,
) -> Result<SectionResult, Memory>
    requires ready { (length given.old.readers.items ≡ 2) × AllReady given.old.control given.old.readers.items }
    requires steps { All (IsRunnableStep given.old.control.schema) given.old.steps × HasNumbers given.old.control given.old.steps }
    requires packets { All (IsFitting given.old.control.schema) given.old.packets × (length given.old.packets ≡ 33) }
    ensures ready { IfOk result (λ _. (length given.new.readers.items ≡ 2) × AllReady given.new.control given.new.readers.items) }
    ensures packets { IfOk result (λ _. All (IsFitting given.new.control.schema) given.new.packets × (length given.new.packets ≡ 33)) }
{
    run_section(
        rt,
        alloc,
        &mut given.control,
        &given.steps,
        false,
        &mut given.readers,
        &given.packets,
        100,
        &NumberJudge,
        &OpenGate,
    )
}

/// Looks 33 packets up, without a step beside them.
fn behind_commit<R: Threads + Abort + Sync>(
    rt: &R,
    alloc: Global,
    given: &mut Prepared,
) -> Result<SectionResult, Memory>
    requires ready { (length given.old.readers.items ≡ 2) × AllReady given.old.control given.old.readers.items }
    requires packets { All (IsFitting given.old.control.schema) given.old.packets × (length given.old.packets ≡ 33) }
{
    assert!(rt; given.control.number() < 1_000_000);
    run_section(
        rt,
        alloc,
        &mut given.control,
        &Steps::new(alloc),
        false,
        &mut given.readers,
        &given.packets,
        133,
        &LookupJudge,
        &OpenGate,
    )
}

/// Asserts how many events and lines a section has.
fn assert_counts(rt: &impl Abort, section: &SectionResult, events: u64) {
    same(rt, section.events.len(), events);
    same(rt, section.lines.len(), 33);
}

fn assert_sections<R: Threads + Abort + Sync>(
    rt: &R,
    alloc: Global,
    given: &mut Prepared,
) -> Result<(), Memory>
    requires ready { (length given.old.readers.items ≡ 2) × AllReady given.old.control given.old.readers.items }
    requires steps { All (IsRunnableStep given.old.control.schema) given.old.steps × HasNumbers given.old.control given.old.steps }
    requires packets { All (IsFitting given.old.control.schema) given.old.packets × (length given.old.packets ≡ 33) }
{
    let first = beside_commit(rt, alloc, given)?;
    assert_counts(rt, &first, 1);
    assert_numbers(rt, first.lines.as_slice());
    let second = behind_commit(rt, alloc, given)?;
    assert_counts(rt, &second, 0);
    assert_found(rt, second.lines.as_slice());
    Ok(())
}

#[test]
fn a_commit_beside_packets_and_packets_behind_it(rt: HostRuntime) -> Result<(), Fail> {
    let alloc = rt.alloc();
    assert_sections(&rt, alloc, &mut prepare(alloc, 2, 33)?)?;
    Ok(())
}

/// Adds port 80, then an interval that encloses it, and commits.
fn refused_steps(alloc: Global, schema: &Schema) -> Result<Steps, Memory>
    requires { length schema.now ≡ 1 }
    ensures steps { IfOk result (All (IsRunnableStep schema.now)) }
    ensures three { IfOk result (λ steps. length steps ≡ 3) }
{
    let mut steps = Steps::new(alloc);
    steps.push(addition(alloc, schema, 80, 80)?)?;
    steps.push(addition(alloc, schema, 80, 90)?)?;
    steps.push(Step::Commit { now: 0 })?;
    Ok(steps)
}

/// The events of an addition that is refused, and of a commit.
#[tactic(auto, using(packet_pool::proofs::RunLaws::few_commits))]
fn refusal(alloc: Global, keep_going: bool) -> Result<Events, Memory> {
    let schema = one_set(alloc, None)?;
    let steps = refused_steps(alloc, &schema)?;
    let (mut control, _readers) = start(alloc, schema, 1)?;
    run_steps(alloc, &mut control, &steps, keep_going, &OpenGate)
}

const REFUSED: Event = Event::Refused {
    line: 1,
    set: 0,
    why: Why::Overlap { id: 0 },
};

/// Asserts the events, which end with this one.
fn assert_refusal(
    rt: &impl Abort,
    alloc: Global,
    keep_going: bool,
    last: Event,
) -> Result<(), Memory> {
    assert!(rt; refusal(alloc, keep_going)?.as_slice() == [REFUSED, last].as_slice());
    Ok(())
}

#[test]
fn a_refused_addition_fails_its_transaction_or_is_skipped(rt: HostRuntime) -> Result<(), Fail> {
    assert_refusal(&rt, rt.alloc(), false, Event::Dropped { generation: 0 })?;
    let committed = Event::Committed {
        generation: 1,
        purged: 0,
    };
    Ok(assert_refusal(&rt, rt.alloc(), true, committed)?)
}
