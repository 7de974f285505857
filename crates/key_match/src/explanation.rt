//! The explanation of a packet's answer.
ghost use Rattle.std.specs.Prelude.{◌≡◌, ◌++◌, true, IfSome, OnOk, option_map};
ghost use Rattle.std.specs.List.{find};
ghost use Rattle.set_model.specs.Key.{key_fits, parts_fit};
ghost use Rattle.set_model.specs.SetState.{answers};
ghost use Rattle.key_match.specs.Matched.{IsProper, plain, explained, packet_line, packet_text};

use crate::asked::Asked;
use crate::hit::write_hit;
use crate::miss::write_miss;
use element_text::write_key;
use set_model::{Element, Memory};
use text_pieces::Piece::{Set, Word};
use text_pieces::append_pieces;

/// Appends the set and the key of a packet, as a key file has them.
fn write_packet_line(asked: &Asked<'_>, out: &mut Vec<u8>) -> Result<(), Memory>
    requires { key_fits asked.now.declared.now.kinds asked.now.key.now ≡ true }
    ensures { OnOk result (out.new.items ≡ out.old.items ++ packet_line (plain asked.now)) }
{
    append_pieces(&[Set(asked.declared), Word(b" ")], out)?;
    write_key(asked.declared.kinds.as_slice(), asked.key, out)?;
    append_pieces(&[Word(b"\n")], out)
}

/// Appends the explanation of an answer.
fn write_explained(
    asked: &Asked<'_>,
    answer: Option<&Element>,
    out: &mut Vec<u8>,
) -> Result<(), Memory>
    requires proper { IsProper (plain asked.now) }
    requires fits { IfSome answer (λ e. parts_fit asked.now.declared.now.kinds e.now.parts ≡ true) }
    ensures { OnOk result (out.new.items ≡ out.old.items ++ explained (plain asked.now) (option_map (λ e. e.now) answer.entry)) }
{
    match answer {
        None => write_miss(asked, out),
        Some(element) => write_hit(asked, element, out),
    }
}

/// Appends a packet, and the explanation of its answer: the first element that is live and holds the key, or none.
///
/// # Errors
///
/// `Memory` if memory runs out.
pub fn write_packet(
    asked: &Asked<'_>,
    answer: Option<&Element>,
    out: &mut Vec<u8>,
) -> Result<(), Memory>
    requires proper { IsProper (plain asked.now) }
    requires fits { IfSome answer (λ e. parts_fit asked.now.declared.now.kinds e.now.parts ≡ true) }
    requires first { option_map (λ e. e.now) answer ≡ find (answers asked.now.key.now asked.now.at) asked.now.elements.now }
    ensures { OnOk result (out.new.items ≡ out.old.items ++ packet_text (plain asked.now)) }
{
    write_packet_line(asked, out)?;
    write_explained(asked, answer, out)
}
