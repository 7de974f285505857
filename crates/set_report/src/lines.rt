ghost use Rattle.std.specs.Prelude.{◌≡◌, ◌++◌, OnOk, OnErr};
ghost use Rattle.set_model.specs.Text.{packet_text, lines_text};
ghost use Rattle.set_report.specs.PacketLine.{TellsParts};
ghost use Rattle.text_pieces.specs.Appends.{AppendsPart};

use set_model::{Line, Lines, Memory, Verdict};
use text_pieces::Piece::{Number, Packet, Word};
use text_pieces::append_pieces;

/// Appends the line of a packet.
fn write_line(line: &Line, out: &mut Vec<u8>) -> Result<(), Memory>
    ensures ok { OnOk result (out.new.items ≡ out.old.items ++ packet_text line.now) }
    ensures err { OnErr result (AppendsPart out.old.items out.new.items (packet_text line.now)) }
{
    match line.verdict {
        Verdict::None => append_pieces(&[Packet(line), Word(b" none\n")], out),
        Verdict::Element { id } => append_pieces(
            &[Packet(line), Word(b" element "), Number(id), Word(b"\n")],
            out,
        ),
    }
}

/// Appends the lines of packets, in their order: `packet 0 thread 0 generation 1 element 7`, or with
/// `none` if no element matched.
///
/// # Errors
///
/// `Memory` if memory runs out. A front of the text is then appended.
pub fn write_lines(lines: &Lines, out: &mut Vec<u8>) -> Result<(), Memory>
    ensures ok { OnOk result (out.new.items ≡ out.old.items ++ lines_text lines.now) }
    ensures err { OnErr result (AppendsPart out.old.items out.new.items (lines_text lines.now)) }
{
    for line in lines.as_slice() {
        write_line(line, out)?;
    }
    Ok(())
}

/// The bytes of a packet's line determine its four parts: its number, its thread, its generation and its verdict.
pub fn packet_line_law()
    ensures { TellsParts }
{}
