ghost use Rattle.std.specs.Prelude.{◌≡◌, ◌++◌, ℕ, List, map, IfOk, OnOk, All};
ghost use Rattle.std.specs.List.{list_all, flat_map};
ghost use Rattle.pcap_keys.specs.Selectors.{is_in, selected_value};
ghost use Rattle.set_model.specs.Runnable.{IsFitting};
ghost use Rattle.set_model.specs.declared.packet.Packet.{Packet as Looked};
ghost use Rattle.set_model.specs.declared.script.SetDecl.{SetDecl as Declared};
ghost use Rattle.pcap_keys.specs.Planned as planned;
ghost use Rattle.pcap_keys.specs.PlansText.{IsPlanText};
ghost use Rattle.pcap_keys.specs.CapturedPackets.{IsCapture, AreCaptured};
ghost use Rattle.pcap_keys.specs.Fitting.{IsPlanned, HasValues};

use crate::facts::{Frame, Frames};
use crate::selector::{Plan, PlanLine, Selector};
use frame_facts::Facts;
use set_model::{Key, Memory, Packet, Packets, Schema};
use std::alloc::Global;

fn all_are_in(facts: &Facts, selectors: &[Selector]) -> bool
    ensures { result ≡ list_all (is_in facts.now) selectors.now }
{
    selectors.iter().all(|selector| selector.is_in(facts))
}

fn key_of(alloc: Global, facts: &Facts, selectors: &[Selector]) -> Result<Key, Memory>
    ensures { IfOk result (λ key. key ≡ map (selected_value facts.now) selectors.now) }
{
    let mut key = Key::new(alloc);
    'values: for selector in selectors {
        key.push(selector.value(facts))?;
    }
    Ok(key)
}

/// Adds the packet that a line of the plan makes of these facts, if they have what all its selectors
/// select.
fn add_line(
    alloc: Global,
    packets: &mut Packets,
    facts: &Facts,
    moment: u64,
    line: &PlanLine,
) -> Result<(), Memory>
    ensures { OnOk result (packets.new ≡ packets.old ++ planned.line_packets facts.now moment line.now) }
{
    let selectors = line.selectors.as_slice();
    if all_are_in(facts, selectors) {
        packets.push(Packet {
            set: line.set,
            key: key_of(alloc, facts, selectors)?,
            now: moment,
        })
    } else {
        Ok(())
    }
}

fn add_lines(
    alloc: Global,
    packets: &mut Packets,
    facts: &Facts,
    moment: u64,
    plan: &[PlanLine],
) -> Result<(), Memory>
    ensures { OnOk result (packets.new ≡ packets.old ++ flat_map (planned.line_packets facts.now moment) plan.now) }
{
    'lines: for line in plan {
        add_line(alloc, packets, facts, moment, line)?;
    }
    Ok(())
}

fn add_frame(
    alloc: Global,
    packets: &mut Packets,
    plan: &[PlanLine],
    frame: &Frame,
) -> Result<(), Memory>
    ensures { OnOk result (packets.new ≡ packets.old ++ planned.frame_packets plan.now frame.now) }
{
    match &frame.facts {
        Some(facts) => add_lines(alloc, packets, facts, frame.moment, plan),
        None => Ok(()),
    }
}

fn all_packets(alloc: Global, plan: &Plan, frames: &Frames) -> Result<Packets, Memory>
    ensures { IfOk result (λ packets. packets ≡ planned.packets plan.now frames.now) }
{
    let mut packets = Packets::new(alloc);
    'captured: for frame in frames.as_slice() {
        add_frame(alloc, &mut packets, plan.as_slice(), frame)?;
    }
    Ok(packets)
}

/// The packets of a capture's frames, frame by frame, and for each frame line by line of the plan. A
/// line makes a packet of its set if the frame has facts, and if the facts have what each selector
/// selects. The packet's moment is the frame's.
///
/// # Errors
///
/// `Memory` if memory runs out.
pub fn keys_of(alloc: Global, plan: &Plan, frames: &Frames) -> Result<Packets, Memory>
    // These are the packets that the plan makes of the frames.
    ensures packets { IfOk result (λ packets. packets ≡ planned.packets plan.now frames.now) }
    // So these are the packets of a plan's text and a capture, if this is the text's plan and these are
    // the capture's frames.
    ensures captured { (schema : List Declared) (plan_text capture_text : List ℕ) → IsPlanText schema plan_text plan.now → IsCapture capture_text frames.now → IfOk result (AreCaptured schema plan_text capture_text) }
    // They fit the sets that the plan was read for.
    ensures fit { (schema : List Declared) → All (IsPlanned schema) plan.now → All HasValues frames.now → IfOk result (All (IsFitting schema)) }
{
    all_packets(alloc, plan, frames)
}

/// A plan and a capture have at most one list of packets.
pub fn one_capture_law(_schema: &Schema, _plan: &[u8], _capture: &[u8])
    ensures { (packets other : List Looked) → AreCaptured _schema.now _plan.now _capture.now packets → AreCaptured _schema.now _plan.now _capture.now other → packets ≡ other }
{}
