//! The note on a file that is no capture.
ghost use Rattle.std.specs.Prelude.{IfOk, ◌≤◌, ◌+◌, length};
ghost use Rattle.token_notes.specs.Shown.{Begins, byte_text};

use pcap_keys::CaptureReason;
use set_model::Memory;
use std::alloc::Global;
use token_notes::Note;

/// The place of the link type in libpcap's classic format.
const LINK_TYPE: usize = 20;

/// How many bytes of an interface description come before its link type.
const BEFORE_LINK_TYPE: usize = 8;

/// Whether a file begins as one of pcapng.
fn is_sections(file: &[u8]) -> bool {
    file.starts_with(b"\x0a\x0d\x0d\x0a")
}

/// What kind of file this is, by its first bytes, if they aren't a capture's magic.
fn by_magic(file: &[u8]) -> &'static [u8] {
    match file {
        [0x1f, 0x8b, ..] => b"this is a file that gzip has packed: unpack it first",
        [0x28, 0xb5, 0x2f, 0xfd, ..] => b"this is a file that zstd has packed: unpack it first",
        [0xfd, b'7', b'z', b'X', b'Z', ..] => b"this is a file that xz has packed: unpack it first",
        [a, b, c, d, ..] if is_of_text(&[*a, *b, *c, *d]) =>
            b"this looks like a text: the script is named first, then the plan, and then the capture",
        [] => b"the file is empty",
        _ => b"this isn't a capture in pcap or pcapng",
    }
}

/// Whether these bytes may be of a text.
fn is_of_text(bytes: &[u8]) -> bool {
    bytes
        .iter()
        .all(|b| matches!(*b, 32..=126 | b'\t' | b'\n' | b'\r'))
}

/// The link type of a capture in libpcap's classic format. If the magic begins with its least
/// significant byte, so do the numbers of the header.
fn classic_link(file: &[u8]) -> Option<u64> {
    let is_little = matches!(file.first(), Some(0xd4 | 0x4d));
    match file.get(LINK_TYPE..LINK_TYPE + 4)? {
        [low, high, _, _] if is_little => Some(u64::from(*low) + 256 * u64::from(*high)),
        [_, _, high, low] => Some(u64::from(*low) + 256 * u64::from(*high)),
        _ => None,
    }
}

/// The link type at a byte of an interface description. The block's type is 1. If it begins with its
/// least significant byte, so do all numbers of the block.
fn interface_link(file: &[u8], byte: u64) -> Option<u64> {
    let block = (byte as usize).checked_sub(BEFORE_LINK_TYPE)?;
    match file.get(block..)? {
        [1, _, _, _, _, _, _, _, low, high, ..] | [_, _, _, _, _, _, _, _, high, low, ..] => {
            Some(u64::from(*low) + 256 * u64::from(*high))
        }
        _ => None,
    }
}

/// Adds the link type at this byte and that it isn't supported.
fn add_foreign_link(note: &mut Note, file: &[u8], byte: u64) -> Result<(), Memory> {
    let number = if is_sections(file) {
        interface_link(file, byte)
    } else {
        classic_link(file)
    };
    if let Some(number) = number {
        note.say(b"its link type is ")?;
        note.number(number)?;
        note.say(b": ")?;
    }
    note.say(
        b"Ethernet (1), raw IP (12, 14, 101, 228, 229) and Linux cooked capture (113, 276) are supported",
    )
}

/// Adds that a file is cut at this byte.
fn add_cut(note: &mut Note, file: &[u8], byte: u64) -> Result<(), Memory> {
    if is_sections(file) {
        note.say(b"the block that begins here isn't there as a whole: the first ")?;
    } else if byte == 0 {
        return note.say(b"the file has fewer bytes than the 24 of a capture's header");
    } else {
        note.say(b"the record that begins here isn't there as a whole: the first ")?;
    }
    note.number(byte)?;
    note.say(b" bytes are a capture")
}

/// Adds what is wrong with a capture.
fn add_capture_fault(
    note: &mut Note,
    file: &[u8],
    byte: u64,
    reason: CaptureReason,
) -> Result<(), Memory> {
    match reason {
        CaptureReason::Magic if is_sections(file) => {
            note.say(b"the magic of this section header isn't 0x1a2b3c4d in either byte order")
        }
        CaptureReason::Magic => note.say(by_magic(file)),
        CaptureReason::Cut => add_cut(note, file, byte),
        CaptureReason::Version if is_sections(file) => {
            note.say(b"the version of this section isn't 1.0")
        }
        CaptureReason::Version => note.say(b"its version isn't 2.4"),
        CaptureReason::LinkType => add_foreign_link(note, file, byte),
        CaptureReason::Length => note.say(
            b"a length in this block isn't a multiple of four, doesn't fit the block, or differs from its copy",
        ),
        CaptureReason::Interface => {
            note.say(b"the interface of this packet isn't described in its section")
        }
        CaptureReason::Options => note.say(
            b"an option of this interface isn't whole, or is no if_tsresol down to 10^-19 or 2^-63, or no if_tsoffset",
        ),
    }
}

/// The note on a file that is no capture: `NAME: byte B: what is wrong`. It says what the file is, if
/// its first bytes show it.
///
/// # Errors
///
/// `Memory` if memory runs out.
pub fn capture_note(
    alloc: Global,
    name: &str,
    file: &[u8],
    byte: u64,
    reason: CaptureReason,
) -> Result<Note, Memory>
    ensures byte { IfOk result (λ note. Begins (byte_text name.now byte) note.bytes.items) }
{
    let mut said = Note::new(alloc);
    add_capture_fault(&mut said, file, byte, reason)?;
    said.end_line()?;
    let mut note = Note::new(alloc);
    note.byte_place(name.as_bytes(), byte)?;
    note.join(&said)?;
    Ok(note)
}
