//! A key and an element in words.
ghost use Rattle.std.specs.Prelude.{◌≡◌, ◌++◌, ◌<◌, [], true, not, if◌then◌else◌, IfOk, OnOk, slice_get, get_or, length, codes};
ghost use Rattle.key_match.specs.Holders.{holds_field as has_field};
ghost use Rattle.set_model.specs.declared.kind.Kind.TheVariants.{Ipv4};
ghost use Rattle.set_model.specs.Key.{is_value, key_fits, parts_fit};
ghost use Rattle.key_match.specs.Matched.{plain, field_text, front_text, named_text, unmatched_text};

use crate::asked::Asked;
use crate::holders::holds_field;
use addr_text::write_value;
use element_text::{write_intervals, write_line};
use set_model::{Element, Kind, Memory, SetDecl};
use text_pieces::Piece::{Number, Word};
use text_pieces::{append, append_pieces};

/// Appends a value of a field, of the field's kind.
pub(crate) fn write_field(
    kinds: &[Kind],
    field: usize,
    value: u128,
    out: &mut Vec<u8>,
) -> Result<(), Memory>
    requires field { field < length kinds.now }
    requires value { is_value (get_or kinds.now field Ipv4) value ≡ true }
    ensures { OnOk result (out.new.items ≡ out.old.items ++ field_text kinds.now (field, value)) }
{
    write_value(kinds[field], value, out)
}

/// Appends a separator and the value of a field, if an element doesn't hold the value. Returns the separator of the next value.
fn write_if_unmatched<'a>(
    kinds: &[Kind],
    field: usize,
    value: u128,
    element: &Element,
    separator: &'a [u8],
    out: &mut Vec<u8>,
) -> Result<&'a [u8], Memory>
    requires field { field < length kinds.now }
    requires value { is_value (get_or kinds.now field Ipv4) value ≡ true }
    ensures text { OnOk result (out.new.items ≡ out.old.items ++ (if not (has_field element.now (field, value)) then separator.now ++ field_text kinds.now (field, value) else [])) }
    ensures ahead { IfOk result (λ next. next.now ≡ (if not (has_field element.now (field, value)) then codes " and " else separator.now)) }
{
    if holds_field(element, field, value) {
        return Ok(separator);
    }
    append(separator, out)?;
    write_field(kinds, field, value, out)?;
    Ok(b" and ")
}

/// Appends the values of a key that an element doesn't hold.
pub(crate) fn write_unmatched(
    kinds: &[Kind],
    key: &[u128],
    element: &Element,
    out: &mut Vec<u8>,
) -> Result<(), Memory>
    requires { key_fits kinds.now key.now ≡ true }
    ensures { OnOk result (out.new.items ≡ out.old.items ++ unmatched_text kinds.now key.now element.now) }
{
    let mut separator: &[u8] = b"";
    'fields: for (field, value) in key.iter().enumerate() {
        separator = write_if_unmatched(kinds, field, *value, element, separator, out)?;
    }
    Ok(())
}

/// Appends an element by its id and its intervals.
pub(crate) fn write_front(set: &SetDecl, element: &Element, out: &mut Vec<u8>) -> Result<(), Memory>
    requires { parts_fit set.now.kinds element.now.parts ≡ true }
    ensures { OnOk result (out.new.items ≡ out.old.items ++ front_text set.now element.now) }
{
    append_pieces(&[Word(b"element "), Number(element.id), Word(b": ")], out)?;
    write_intervals(set.kinds.as_slice(), element.parts.as_slice(), out)
}

/// Appends an element by its id and its intervals, and the line that added it.
pub(crate) fn write_named(
    asked: &Asked<'_>,
    element: &Element,
    out: &mut Vec<u8>,
) -> Result<(), Memory>
    requires { parts_fit asked.now.declared.now.kinds element.now.parts ≡ true }
    ensures { OnOk result (out.new.items ≡ out.old.items ++ named_text (plain asked.now) element.now) }
{
    write_front(asked.declared, element, out)?;
    write_line(asked.lines, element.id, out)
}
