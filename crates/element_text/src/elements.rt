//! The parts of an element in words.
ghost use Rattle.std.specs.Prelude.{◌≡◌, ◌++◌, true, OnOk, slice_get};
ghost use Rattle.set_model.specs.Key.{parts_fit};
ghost use Rattle.element_text.specs.ElementText.{intervals_text, comment_text, line_text};
ghost use Rattle.element_text.specs.Kept.{KeepsBytes};

use addr_text::write_interval;
use set_model::{Interval, Kind, Memory};
use text_pieces::Piece::{Number, Word};
use text_pieces::{append, append_pieces};

/// Appends the intervals of an element: `192.0.2.0/24 . 80-443`.
///
/// # Errors
///
/// `Memory` if memory runs out. The old bytes are still there, before what was appended.
pub fn write_intervals(
    kinds: &[Kind],
    intervals: &[Interval],
    out: &mut Vec<u8>,
) -> Result<(), Memory>
    requires { parts_fit kinds.now intervals.now ≡ true }
    ensures ok { OnOk result (out.new.items ≡ out.old.items ++ intervals_text kinds.now intervals.now) }
    ensures kept { KeepsBytes out.old.items out.new.items }
{
    let mut separator: &[u8] = b"";
    'fields: for (field, interval) in intervals.iter().enumerate() {
        append(separator, out)?;
        write_interval(kinds[field], *interval, out)?;
        separator = b" . ";
    }
    Ok(())
}

/// Appends a comment in quotes, with a blank before it: ` comment "web"`. It appends nothing if there is no comment.
///
/// # Errors
///
/// `Memory` if memory runs out. The old bytes are still there, before what was appended.
pub fn write_comment(comment: &[u8], out: &mut Vec<u8>) -> Result<(), Memory>
    ensures ok { OnOk result (out.new.items ≡ out.old.items ++ comment_text comment.now) }
    ensures kept { KeepsBytes out.old.items out.new.items }
{
    match comment {
        [] => Ok(()),
        _ => append_pieces(&[Word(b" comment \""), Word(comment), Word(b"\"")], out),
    }
}

/// Appends the line of a script that added the element of an id, with a blank before it: ` (line 6)`. `lines` has the lines by the
/// ids. It appends nothing if the line isn't there.
///
/// # Errors
///
/// `Memory` if memory runs out. The old bytes are still there, before what was appended.
pub fn write_line(lines: &[u64], id: u64, out: &mut Vec<u8>) -> Result<(), Memory>
    ensures ok { OnOk result (out.new.items ≡ out.old.items ++ line_text (slice_get lines.now id)) }
    ensures kept { KeepsBytes out.old.items out.new.items }
{
    match lines.get(id as usize) {
        None => Ok(()),
        Some(line) => append_pieces(&[Word(b" (line "), Number(*line), Word(b")")], out),
    }
}
