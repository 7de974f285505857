//! What is written of a packet that no element answers.
ghost use Rattle.std.specs.Prelude.{◌≡◌, ◌++◌, ◌<◌, true, IfSome, OnOk, Some, option_map, length, get_or, flat_map};
ghost use Rattle.set_model.specs.declared.kind.Kind.TheVariants.{Ipv4};
ghost use Rattle.set_model.specs.Key.{is_value, key_fits, parts_fit};
ghost use Rattle.key_match.specs.Holders.{fields};
ghost use Rattle.key_match.specs.Matched.{IsProper, plain, moment_text, expired_text, total_text, first_count, next_count, count_text, counts_line, nearest_text, near_text, miss_text};

use crate::asked::Asked;
use crate::holders::{count_holders, count_live, first_holder, nearest};
use crate::words::{write_field, write_named, write_unmatched};
use set_model::{Element, Memory};
use text_pieces::Piece::{Number, Time, Word};
use text_pieces::append_pieces;

/// Appends the moment of an expiry, if there is one, and ends the line.
fn write_moment(expiry: Option<u64>, out: &mut Vec<u8>) -> Result<(), Memory>
    ensures { OnOk result (out.new.items ≡ out.old.items ++ moment_text expiry) }
{
    match expiry {
        None => append_pieces(&[Word(b"\n")], out),
        Some(expiry) => append_pieces(&[Word(b", at "), Time(expiry), Word(b"\n")], out),
    }
}

/// Appends the line of an expired element that held the key.
fn write_expired_line(asked: &Asked<'_>, element: &Element, out: &mut Vec<u8>) -> Result<(), Memory>
    requires { parts_fit asked.now.declared.now.kinds element.now.parts ≡ true }
    ensures { OnOk result (out.new.items ≡ out.old.items ++ expired_text (plain asked.now) (Some element.now)) }
{
    append_pieces(&[Word(b"    expired: ")], out)?;
    write_named(asked, element, out)?;
    write_moment(element.expiry, out)
}

/// Appends the line of an expired element that held the key, if there is one.
fn write_expired(
    asked: &Asked<'_>,
    element: Option<&Element>,
    out: &mut Vec<u8>,
) -> Result<(), Memory>
    requires { IfSome element (λ e. parts_fit asked.now.declared.now.kinds e.now.parts ≡ true) }
    ensures { OnOk result (out.new.items ≡ out.old.items ++ expired_text (plain asked.now) (option_map (λ e. e.now) element.entry)) }
{
    match element {
        None => Ok(()),
        Some(element) => write_expired_line(asked, element, out),
    }
}

/// Appends a number of elements.
fn write_total(count: u64, out: &mut Vec<u8>) -> Result<(), Memory>
    ensures { OnOk result (out.new.items ≡ out.old.items ++ total_text count) }
{
    if count == 1 {
        append_pieces(&[Number(count), Word(b" element")], out)
    } else {
        append_pieces(&[Number(count), Word(b" elements")], out)
    }
}

/// Appends how many live elements hold the value of the first field, and how many there are.
fn write_first_count(
    asked: &Asked<'_>,
    field: usize,
    value: u128,
    out: &mut Vec<u8>,
) -> Result<(), Memory>
    requires field { field < length asked.now.declared.now.kinds }
    requires value { is_value (get_or asked.now.declared.now.kinds field Ipv4) value ≡ true }
    ensures { OnOk result (out.new.items ≡ out.old.items ++ first_count (plain asked.now) (field, value)) }
{
    write_field(asked.declared.kinds.as_slice(), field, value, out)?;
    let holders = count_holders(asked.elements, field, value, asked.at);
    append_pieces(&[Word(b" is in "), Number(holders), Word(b" of ")], out)?;
    write_total(count_live(asked.elements, asked.at), out)
}

/// Appends how many live elements hold the value of another field.
fn write_next_count(
    asked: &Asked<'_>,
    field: usize,
    value: u128,
    out: &mut Vec<u8>,
) -> Result<(), Memory>
    requires field { field < length asked.now.declared.now.kinds }
    requires value { is_value (get_or asked.now.declared.now.kinds field Ipv4) value ≡ true }
    ensures { OnOk result (out.new.items ≡ out.old.items ++ next_count (plain asked.now) (field, value)) }
{
    append_pieces(&[Word(b", ")], out)?;
    write_field(asked.declared.kinds.as_slice(), field, value, out)?;
    let holders = count_holders(asked.elements, field, value, asked.at);
    append_pieces(&[Word(b" in "), Number(holders)], out)
}

/// Appends how many live elements hold the value of a field.
fn write_count(
    asked: &Asked<'_>,
    field: usize,
    value: u128,
    out: &mut Vec<u8>,
) -> Result<(), Memory>
    requires field { field < length asked.now.declared.now.kinds }
    requires value { is_value (get_or asked.now.declared.now.kinds field Ipv4) value ≡ true }
    ensures { OnOk result (out.new.items ≡ out.old.items ++ count_text (plain asked.now) (field, value)) }
{
    if field == 0 {
        write_first_count(asked, field, value, out)
    } else {
        write_next_count(asked, field, value, out)
    }
}

/// Appends how many live elements hold the value of each field.
fn write_each_count(asked: &Asked<'_>, out: &mut Vec<u8>) -> Result<(), Memory>
    requires { key_fits asked.now.declared.now.kinds asked.now.key.now ≡ true }
    ensures { OnOk result (out.new.items ≡ out.old.items ++ flat_map (count_text (plain asked.now)) (fields asked.now.key.now)) }
{
    'fields: for (field, value) in asked.key.iter().enumerate() {
        write_count(asked, field, *value, out)?;
    }
    Ok(())
}

/// Appends the line of these counts.
fn write_counts(asked: &Asked<'_>, out: &mut Vec<u8>) -> Result<(), Memory>
    requires { key_fits asked.now.declared.now.kinds asked.now.key.now ≡ true }
    ensures { OnOk result (out.new.items ≡ out.old.items ++ counts_line (plain asked.now)) }
{
    append_pieces(&[Word(b"    ")], out)?;
    write_each_count(asked, out)?;
    append_pieces(&[Word(b"\n")], out)
}

/// Appends the line of the nearest element.
fn write_nearest_line(asked: &Asked<'_>, element: &Element, out: &mut Vec<u8>) -> Result<(), Memory>
    requires key { key_fits asked.now.declared.now.kinds asked.now.key.now ≡ true }
    requires fits { parts_fit asked.now.declared.now.kinds element.now.parts ≡ true }
    ensures { OnOk result (out.new.items ≡ out.old.items ++ nearest_text (plain asked.now) (Some element.now)) }
{
    append_pieces(&[Word(b"    nearest: ")], out)?;
    write_named(asked, element, out)?;
    append_pieces(&[Word(b", but for ")], out)?;
    write_unmatched(asked.declared.kinds.as_slice(), asked.key, element, out)?;
    append_pieces(&[Word(b"\n")], out)
}

/// Appends the line of the nearest element, if there is one.
fn write_nearest(
    asked: &Asked<'_>,
    element: Option<&Element>,
    out: &mut Vec<u8>,
) -> Result<(), Memory>
    requires key { key_fits asked.now.declared.now.kinds asked.now.key.now ≡ true }
    requires fits { IfSome element (λ e. parts_fit asked.now.declared.now.kinds e.now.parts ≡ true) }
    ensures { OnOk result (out.new.items ≡ out.old.items ++ nearest_text (plain asked.now) (option_map (λ e. e.now) element.entry)) }
{
    match element {
        None => Ok(()),
        Some(element) => write_nearest_line(asked, element, out),
    }
}

/// Appends what the live elements have in common with the key.
fn write_near(asked: &Asked<'_>, out: &mut Vec<u8>) -> Result<(), Memory>
    requires { IsProper (plain asked.now) }
    ensures { OnOk result (out.new.items ≡ out.old.items ++ near_text (plain asked.now)) }
{
    if count_live(asked.elements, asked.at) == 0 {
        return append_pieces(&[Word(b"    the set has no live elements\n")], out);
    }
    write_counts(asked, out)?;
    write_nearest(asked, nearest(asked.elements, asked.key, asked.at), out)
}

/// Appends that no element answers, and why not.
///
/// # Errors
///
/// `Memory` if memory runs out.
pub(crate) fn write_miss(asked: &Asked<'_>, out: &mut Vec<u8>) -> Result<(), Memory>
    requires { IsProper (plain asked.now) }
    ensures { OnOk result (out.new.items ≡ out.old.items ++ miss_text (plain asked.now)) }
{
    append_pieces(&[Word(b"    no element\n")], out)?;
    write_expired(asked, first_holder(asked.elements, asked.key), out)?;
    write_near(asked, out)
}
