//! Values, intervals, and the intervals of an element.
ghost use Rattle.std.specs.Prelude.{◌≡◌, ◌<◌, ◌≤◌, ◌^◌, ◌&&◌, true, map, IfOk, IsTrue, bytes_eq, decimal};
ghost use Rattle.std.specs.List.{zip};
ghost use Rattle.serde_json.specs.View.{view};
ghost use Rattle.set_model.specs.Key.{is_value, is_good, parts_fit};
ghost use Rattle.set_model.specs.declared.kind.Kind.TheVariants.{Proto};
ghost use Rattle.addr_text.specs.Intervals.{block_of};
ghost use Rattle.addr_text.specs.Written.{fixed_bits, is_address, is_whole_block, value_text};
ghost use Rattle.list_json.specs.JsonValues.{text_data, number_data, number_or_text, value_data, end_data, prefix_data, range_data, interval_data, concat_data, intervals_data};

use crate::build::{Members, list_json, named_json, number_json, object_json, text_json};
use addr_text::write_value;
use serde_json::{Value, push, put};
use set_model::{Interval, Kind, Memory};
use std::alloc::Global;
use text_pieces::Piece::Number;
use text_pieces::append_pieces;

/// The text of a value.
fn value_words(alloc: Global, kind: Kind, value: u128) -> Result<Vec<u8>, Memory>
    requires { IsTrue (is_value kind value) }
    ensures { IfOk result (λ text. text.items ≡ value_text kind value) }
{
    let mut text = Vec::new(alloc);
    write_value(kind, value, &mut text)?;
    Ok(text)
}

/// Whether a text is the digits of a number.
fn is_digits(text: &[u8], n: u64, alloc: Global) -> Result<bool, Memory>
    ensures { IfOk result (λ same. same ≡ bytes_eq text.now (decimal n)) }
{
    let mut digits = Vec::new(alloc);
    append_pieces(&[Number(n)], &mut digits)?;
    Ok(text == digits.as_slice())
}

/// A protocol by its name, or by its number if it has none.
fn protocol_json(alloc: Global, number: u64) -> Result<Value, Memory>
    requires { IsTrue (is_value Proto number) }
    ensures { IfOk result (λ v. view v ≡ value_data Proto number) }
{
    let name = value_words(alloc, Kind::Proto, u128::from(number))?;
    if is_digits(name.as_slice(), number, alloc)? {
        Ok(number_json(number))
    } else {
        text_json(alloc, name.as_slice())
    }
}

/// An address as a string.
fn address_json(alloc: Global, kind: Kind, value: u128) -> Result<Value, Memory>
    requires { IsTrue (is_value kind value) }
    ensures { IfOk result (λ v. view v ≡ text_data (value_text kind value)) }
{
    let text = value_words(alloc, kind, value)?;
    text_json(alloc, text.as_slice())
}

/// A value of a kind.
fn value_json(alloc: Global, kind: Kind, value: u128) -> Result<Value, Memory>
    requires { IsTrue (is_value kind value) }
    ensures { IfOk result (λ v. view v ≡ value_data kind value) }
{
    match kind {
        Kind::Ipv4 | Kind::Ipv6 | Kind::Ether => address_json(alloc, kind, value),
        Kind::Proto => protocol_json(alloc, value as u64),
        Kind::Service | Kind::Mark => Ok(number_json(value as u64)),
    }
}

/// An end of a range.
fn end_json(alloc: Global, kind: Kind, value: u128) -> Result<Value, Memory>
    requires { IsTrue (is_value kind value) }
    ensures { IfOk result (λ v. view v ≡ end_data kind value) }
{
    match kind {
        Kind::Ipv4 | Kind::Ipv6 | Kind::Ether => address_json(alloc, kind, value),
        Kind::Proto | Kind::Service | Kind::Mark => Ok(number_json(value as u64)),
    }
}

/// An interval as its two ends.
fn range_json(alloc: Global, kind: Kind, part: Interval) -> Result<Value, Memory>
    requires { IsTrue (is_good kind part) }
    ensures { IfOk result (λ v. view v ≡ range_data kind part) }
{
    let mut ends = Vec::new(alloc);
    push(&mut ends, end_json(alloc, kind, part.low)?)?;
    push(&mut ends, end_json(alloc, kind, part.high)?)?;
    named_json(alloc, "range", list_json(ends))
}

/// How many of the first bits are fixed in a block; `spread` is the number of its values less 1.
fn fixed_bits(bits: u32, spread: u128) -> u32
    requires bits { bits ≤ 128 }
    requires fits { spread < 2 ^ bits }
    ensures value { result ≡ fixed_bits bits spread }
    ensures within { result ≤ bits }
{
    bits.saturating_sub(128 - spread.leading_zeros())
}

/// The block of all values that share the first `fixed` of so many bits with a value.
fn block(bits: u32, fixed: u32, value: u128) -> Interval
    requires fixed { fixed ≤ bits }
    requires bits { bits ≤ 128 }
    requires fits { value < 2 ^ bits }
    ensures { result ≡ block_of bits fixed value }
{
    let host = bits - fixed;
    if host == 128 {
        return Interval {
            low: 0,
            high: u128::MAX,
        };
    }
    let low = value >> host << host;
    Interval {
        low,
        high: low + ((1u128 << host) - 1),
    }
}

/// Whether an interval is a whole block of addresses.
fn is_address_block(kind: Kind, part: Interval) -> bool
    requires { IsTrue (is_good kind part) }
    ensures { result ≡ is_address kind && is_whole_block kind part }
{
    if !matches!(kind, Kind::Ipv4 | Kind::Ipv6) {
        return false;
    }
    let bits = kind.bits();
    let whole = block(bits, fixed_bits(bits, part.high - part.low), part.low);
    part.low == whole.low && part.high == whole.high
}

/// A block as its low end and the number of fixed bits.
fn prefix_json(alloc: Global, kind: Kind, part: Interval) -> Result<Value, Memory>
    requires { IsTrue (is_good kind part) }
    ensures { IfOk result (λ v. view v ≡ prefix_data kind part) }
{
    let fixed = fixed_bits(kind.bits(), part.high - part.low);
    let mut members = Members::new(alloc);
    put(
        &mut members,
        alloc,
        "addr",
        value_json(alloc, kind, part.low)?,
    )?;
    put(&mut members, alloc, "len", number_json(u64::from(fixed)))?;
    named_json(alloc, "prefix", object_json(members))
}

/// An interval of a kind.
fn interval_json(alloc: Global, kind: Kind, part: Interval) -> Result<Value, Memory>
    requires { IsTrue (is_good kind part) }
    ensures { IfOk result (λ v. view v ≡ interval_data kind part) }
{
    if part.low == part.high {
        return value_json(alloc, kind, part.low);
    }
    if is_address_block(kind, part) {
        prefix_json(alloc, kind, part)
    } else {
        range_json(alloc, kind, part)
    }
}

/// The intervals of an element, one by one.
fn each_interval(alloc: Global, kinds: &[Kind], parts: &[Interval]) -> Result<Vec<Value>, Memory>
    requires { parts_fit kinds.now parts.now ≡ true }
    ensures { IfOk result (λ vs. map view vs.items ≡ map (λ p. interval_data p.0 p.1) (zip kinds.now parts.now)) }
{
    let mut values = Vec::new(alloc);
    'fields: for (field, interval) in parts.iter().enumerate() {
        push(&mut values, interval_json(alloc, kinds[field], *interval)?)?;
    }
    Ok(values)
}

/// One value is itself, and several are a concatenation.
fn concat_json(alloc: Global, mut values: Vec<Value>) -> Result<Value, Memory>
    ensures { IfOk result (λ v. view v ≡ concat_data (map view values.items)) }
{
    if values.len() == 1 {
        return Ok(values.remove(0));
    }
    named_json(alloc, "concat", list_json(values))
}

/// The intervals of an element, each of its field's kind.
///
/// # Errors
///
/// `Memory` if memory runs out.
pub(crate) fn intervals_json(
    alloc: Global,
    kinds: &[Kind],
    parts: &[Interval],
) -> Result<Value, Memory>
    requires { parts_fit kinds.now parts.now ≡ true }
    ensures { IfOk result (λ v. view v ≡ intervals_data kinds.now parts.now) }
{
    let values = each_interval(alloc, kinds, parts)?;
    concat_json(alloc, values)
}
