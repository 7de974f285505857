//! The packets of a section.
ghost use Rattle.std.specs.Prelude.{◌≡◌, ◌++◌, ◌||◌, true, All, is_none, option_map, IfOk, OnOk, flat_map, Some};
ghost use Rattle.std.specs.List.{list_any};
ghost use Rattle.set_model.specs.Key.{key_fits};
ghost use Rattle.set_model.specs.Runnable.{IsFitting};
ghost use Rattle.set_model.specs.SetState.{first};
ghost use Rattle.set_report.specs.Writes.{AreSetsOf};
ghost use Rattle.explain_answer.specs.Explained.{lacks_answer, packet_in, said_of};
ghost use Rattle.explain_answer.specs.Runs.{after_run};

use key_answer::{Trace, element_for};
use key_match::{Asked, write_packet};
use pipapo_image::{Scratch, SetImage};
use set_model::{Element, Memory, Packet, Packets, SetDecl};
use std::alloc::Global;

/// Whether one of two things is so.
pub(crate) fn either(one: bool, other: bool) -> bool
    ensures { result ≡ (one || other) }
{
    one || other
}

/// Whether there is no answer.
fn is_missing(answer: Option<&Element>) -> bool
    ensures { result ≡ is_none (option_map (λ e. e.now) answer.entry) }
{
    match answer {
        None => true,
        Some(_) => false,
    }
}

/// Appends a packet and the explanation of its answer in an image of its set. Returns whether it has no answer.
fn write_in(
    declared: &SetDecl,
    lines: &[u64],
    image: &SetImage,
    packet: &Packet,
    scratch: &mut Scratch,
    out: &mut Vec<u8>,
) -> Result<bool, Memory>
    requires kinds { image.now.kinds ≡ declared.now.kinds }
    requires key { key_fits declared.now.kinds packet.now.key ≡ true }
    ensures text { OnOk result (out.new.items ≡ out.old.items ++ said_of (Some declared.now) lines.now packet.entry.now (Some image.now)) }
    ensures lacks { IfOk result (λ lacks. lacks ≡ is_none (first image.now packet.entry.now.key packet.entry.now.now)) }
{
    let answer = element_for(image, packet, scratch);
    let asked = Asked {
        declared,
        elements: image.elements(),
        lines,
        key: packet.key.as_slice(),
        at: packet.now,
    };
    write_packet(&asked, answer, out)?;
    Ok(is_missing(answer))
}

/// Appends a packet and the explanation of its answer in the last generation of a run. Returns whether it has no answer.
fn write_one(
    alloc: Global,
    trace: &Trace,
    packet: &Packet,
    scratch: &mut Scratch,
    out: &mut Vec<u8>,
) -> Result<bool, Memory>
    requires sets { AreSetsOf trace.now.control.schema trace.now.control.work.base.sets }
    requires fits { IsFitting trace.now.control.schema packet.now }
    ensures text { OnOk result (out.new.items ≡ out.old.items ++ packet_in (after_run trace.now) packet.entry.now) }
    ensures lacks { IfOk result (λ lacks. lacks ≡ lacks_answer (after_run trace.now) packet.entry.now) }
{
    let image = trace.image(alloc, packet.set)?;
    let declared = trace.control.schema().at(u64::from(packet.set));
    let lines = trace.lines.of(packet.set);
    write_in(declared, lines, &image, packet, scratch, out)
}

/// Appends the packets of a section, and the explanations of their answers in the last generation of a run. Returns whether one
/// has no answer.
///
/// # Errors
///
/// `Memory` if memory runs out.
pub(crate) fn write_section(
    alloc: Global,
    trace: &Trace,
    packets: &Packets,
    out: &mut Vec<u8>,
) -> Result<bool, Memory>
    requires sets { AreSetsOf trace.now.control.schema trace.now.control.work.base.sets }
    requires fits { All (IsFitting trace.now.control.schema) packets.now }
    ensures text { OnOk result (out.new.items ≡ out.old.items ++ flat_map (packet_in (after_run trace.now)) packets.now) }
    ensures lacks { IfOk result (λ lacks. lacks ≡ list_any (lacks_answer (after_run trace.now)) packets.now) }
{
    let mut scratch = Scratch::new(alloc)?;
    let mut lacks = false;
    'packets: for packet in packets.as_slice() {
        let lacks_one = write_one(alloc, trace, packet, &mut scratch, out)?;
        lacks = either(lacks, lacks_one);
    }
    Ok(lacks)
}
