ghost use Rattle.std.specs.Prelude.{◌≡◌, ◌==◌, ◌≤◌, ◌+◌, length, true, Some, IfOk, All};
ghost use Rattle.pcap_keys.specs.Savefile as savefile;
ghost use Rattle.pcap_keys.specs.Blocks.{section_type};
ghost use Rattle.pcap_keys.specs.declared.format.Order.TheVariants as orders;
ghost use Rattle.pcap_keys.specs.Captured as spec;
ghost use Rattle.pcap_keys.specs.Captured.{IsUnlessMemory, captured};
ghost use Rattle.pcap_keys.specs.Fitting.{HasValues};

use crate::error::{CaptureError, CaptureReason};
use crate::facts::{Frame, Frames};
use crate::format::{Format, Order, format_of};
use crate::place::from_place;
use crate::reading::read_sections;
use frame_facts::{Link, facts_of, link_of};
use std::alloc::Global;

/// The time of a record in milliseconds, rounded down.
fn time(format: Format, header: &[u8]) -> u64
    requires { 8 ≤ length header.now }
    ensures { result ≡ savefile.record_time format header.now }
{
    let seconds = u64::from(format.order.read_u32(header));
    let fraction = u64::from(format.order.read_u32(&header[4..]));
    seconds * 1_000 + fraction / format.fraction.per_millisecond()
}

/// How many bytes of a record's frame were kept.
fn kept(format: Format, header: &[u8]) -> usize
    requires { 16 ≤ length header.now }
    ensures { result ≡ savefile.kept format header.now }
{
    format.order.read_u32(&header[8..]) as usize
}

/// Whether the first record of these bytes is whole: its header, and the kept bytes of its frame.
#[tactic(auto, unfolding(crate::specs::Savefile::is_whole))]
fn is_whole(format: Format, bytes: &[u8]) -> bool
    ensures same { result ≡ savefile.is_whole format bytes.now }
    ensures room { result ≡ true → 16 + savefile.kept format bytes.now ≤ length bytes.now }
{
    bytes.len() >= 16 && bytes.len() - 16 >= kept(format, bytes)
}

/// The frame of the first record of these bytes. Moments count from `start`.
fn frame_of(format: Format, link: Link, start: u64, bytes: &[u8]) -> Frame
    requires { 16 + savefile.kept format bytes.now ≤ length bytes.now }
    ensures { result ≡ spec.frame_of format link start bytes.now }
{
    Frame {
        moment: time(format, bytes).saturating_sub(start),
        facts: facts_of(link, &bytes[16..16 + kept(format, bytes)]),
    }
}

fn start_of(format: Format, text: &[u8]) -> u64
    ensures { result ≡ spec.start_of format text.now }
{
    if text.len() >= 40 {
        time(format, &text[24..])
    } else {
        0
    }
}

/// The frames of the records after a capture's header.
fn all_records(
    alloc: Global,
    format: Format,
    link: Link,
    text: &[u8],
) -> Result<Frames, CaptureError>
    requires { 24 ≤ length text.now }
    ensures { IsUnlessMemory result (spec.all_records format text.now link) }
{
    let start = start_of(format, text);
    let mut frames = Frames::new(alloc);
    let mut place = 24;
    'records: while place < text.len() {
        let bytes = from_place(text, place);
        if !is_whole(format, bytes) {
            return Err(CaptureError::Bad {
                byte: place as u64,
                reason: CaptureReason::Cut,
            });
        }
        match frames.push(frame_of(format, link, start, bytes)) {
            Ok(()) => place += 16 + kept(format, bytes),
            Err(_) => return Err(CaptureError::Memory),
        }
    }
    Ok(frames)
}

fn is_version(format: Format, text: &[u8]) -> bool
    requires { 24 ≤ length text.now }
    ensures { result ≡ savefile.is_version format text.now }
{
    format.order.read_u16(&text[4..]) == 2 && format.order.read_u16(&text[6..]) == 4
}

/// The frames of a capture of this format.
fn of_format(alloc: Global, format: Format, text: &[u8]) -> Result<Frames, CaptureError>
    ensures { IsUnlessMemory result (spec.of_format text.now (Some format)) }
{
    if text.len() < 24 {
        return Err(CaptureError::Bad {
            byte: 0,
            reason: CaptureReason::Cut,
        });
    }
    if !is_version(format, text) {
        return Err(CaptureError::Bad {
            byte: 4,
            reason: CaptureReason::Version,
        });
    }
    match link_of(format.order.read_u32(from_place(text, 20)) % (1 << 16)) {
        Some(link) => all_records(alloc, format, link, text),
        None => Err(CaptureError::Bad {
            byte: 20,
            reason: CaptureReason::LinkType,
        }),
    }
}

/// Whether the bytes begin as a file of pcapng, with the type of a section header.
fn is_sections(text: &[u8]) -> bool
    requires { 4 ≤ length text.now }
    ensures { result ≡ (savefile.number orders.Big 4 text.now == section_type) }
{
    Order::Big.read_u32(text) == 0x0a0d_0d0a
}

#[tactic(auto, unfolding(crate::specs::Captured::captured))]
fn whole(alloc: Global, text: &[u8]) -> Result<Frames, CaptureError>
    ensures { IsUnlessMemory result (captured text.now) }
{
    if text.len() < 4 {
        return Err(CaptureError::Bad {
            byte: 0,
            reason: CaptureReason::Magic,
        });
    }
    if is_sections(text) {
        return read_sections(alloc, text);
    }
    match format_of(text) {
        Some(format) => of_format(alloc, format, text),
        None => Err(CaptureError::Bad {
            byte: 0,
            reason: CaptureReason::Magic,
        }),
    }
}

/// The frames of a capture, record by record: of libpcap's classic format, version 2.4, or of pcapng. It
/// reads the bytes once, and allocates memory for the frames and the interfaces alone.
///
/// # Errors
///
/// `Bad` exactly if the bytes aren't a capture, with the byte and the reason of the first fault. Of
/// libpcap's format:
///
/// - `Magic` at byte 0, also for compressed files;
/// - `Cut` at byte 0 if the file's header isn't whole;
/// - `Version` at byte 4;
/// - `LinkType` at byte 20;
/// - `Cut` at the first byte of a record that isn't whole.
///
/// Of pcapng, in the first block that has a fault:
///
/// - `Cut` at its first byte if it isn't whole;
/// - `Magic` at byte 8 of a section header;
/// - `Length` at byte 4, if the length isn't one of such a block or differs from its copy;
/// - `Version` at byte 12 of a section header;
/// - `LinkType` at byte 8 of an interface description, and `Options` at its first byte;
/// - `Interface` at byte 8 of an enhanced packet, or at the first byte of a simple one;
/// - `Length` at byte 20 of an enhanced packet, or byte 8 of a simple one, if its kept bytes aren't in it.
///
/// `Memory` if memory runs out.
pub fn read_capture(alloc: Global, text: &[u8]) -> Result<Frames, CaptureError>
    // Unless memory runs out, it returns what the bytes mean as a capture: its frames, or its first
    // fault.
    ensures read { IsUnlessMemory result (captured text.now) }
    // Addresses, protocols and ports are values of their kinds.
    ensures values { IfOk result (All HasValues) }
{
    whole(alloc, text)
}
