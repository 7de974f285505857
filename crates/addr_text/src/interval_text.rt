ghost use Rattle.std.specs.Prelude.{ℕ, ◌≡◌, ◌↔◌, ◌++◌, ◌-◌, ◌≤◌, ◌<◌, ◌^◌, ◌==◌, ◌&&◌, OnOk, OnErr, IsTrue, decimal, codes};
ghost use Rattle.set_model.specs.Key.{is_value, is_good};
ghost use Rattle.set_model.specs.Kind.{bits_of};
ghost use Rattle.addr_text.specs.Intervals.{block_of, IsInterval};
ghost use Rattle.addr_text.specs.Written.{fixed_bits, is_whole_block, IsBlock, is_address, value_text, block_text, range_text, interval_text};

use crate::append::{append, append_display, cut_at_error};
use crate::interval::block;
use crate::value_text::write_value;
use set_model::{Interval, Kind, Memory};

/// Whether blocks of values of this kind are written with `/`.
fn is_address(kind: Kind) -> bool
    ensures { result ≡ is_address kind }
{
    matches!(kind, Kind::Ipv4 | Kind::Ipv6)
}

/// How many of the first bits are fixed in a block; `spread` is the number of its values less 1.
fn fixed_bits(bits: u32, spread: u128) -> u32
    requires bits { bits ≤ 128 }
    requires fits { spread < 2 ^ bits }
    ensures value { result ≡ fixed_bits bits spread }
    ensures within { result ≤ bits }
{
    bits.saturating_sub(128 - spread.leading_zeros())
}

/// Whether an interval is a whole block of its kind's values.
fn is_block(kind: Kind, part: Interval) -> bool
    requires { IsTrue (is_good kind part) }
    ensures { result ≡ is_whole_block kind part }
{
    let bits = kind.bits();
    let whole = block(bits, fixed_bits(bits, part.high - part.low), part.low);
    part.low == whole.low && part.high == whole.high
}

fn write_length(fixed: u32, out: &mut Vec<u8>) -> Result<(), Memory>
    ensures ok { OnOk result (out.new.items ≡ out.old.items ++ (codes "/" ++ decimal fixed)) }
    ensures err { OnErr result (out.new.items ≡ out.old.items) }
{
    let len = out.len();
    append(out, b"/")?;
    let written = append_display(out, fixed);
    cut_at_error(written, len, out)
}

fn write_block(kind: Kind, part: Interval, out: &mut Vec<u8>) -> Result<(), Memory>
    requires { IsTrue (is_good kind part) }
    ensures ok { OnOk result (out.new.items ≡ out.old.items ++ block_text kind part) }
    ensures err { OnErr result (out.new.items ≡ out.old.items) }
{
    let len = out.len();
    write_value(kind, part.low, out)?;
    let written = write_length(fixed_bits(kind.bits(), part.high - part.low), out);
    cut_at_error(written, len, out)
}

fn write_high(kind: Kind, high: u128, out: &mut Vec<u8>) -> Result<(), Memory>
    requires { IsTrue (is_value kind high) }
    ensures ok { OnOk result (out.new.items ≡ out.old.items ++ (codes "-" ++ value_text kind high)) }
    ensures err { OnErr result (out.new.items ≡ out.old.items) }
{
    let len = out.len();
    append(out, b"-")?;
    let written = write_value(kind, high, out);
    cut_at_error(written, len, out)
}

fn write_range(kind: Kind, part: Interval, out: &mut Vec<u8>) -> Result<(), Memory>
    requires { IsTrue (is_good kind part) }
    ensures ok { OnOk result (out.new.items ≡ out.old.items ++ range_text kind part) }
    ensures err { OnErr result (out.new.items ≡ out.old.items) }
{
    let len = out.len();
    write_value(kind, part.low, out)?;
    let written = write_high(kind, part.high, out);
    cut_at_error(written, len, out)
}

/// Appends the text of an interval of a kind. A single value is written as such. A block of addresses
/// is its low end, `/` and the number of fixed bits. Any other interval is its two ends with `-`
/// between them.
///
/// # Errors
///
/// `Memory` if memory runs out; `out` is then as before.
#[tactic(auto, unfolding(crate::specs::Written::interval_text))]
pub fn write_interval(kind: Kind, part: Interval, out: &mut Vec<u8>) -> Result<(), Memory>
    requires { IsTrue (is_good kind part) }
    ensures ok { OnOk result (out.new.items ≡ out.old.items ++ interval_text kind part) }
    ensures err { OnErr result (out.new.items ≡ out.old.items) }
{
    if part.low == part.high {
        return write_value(kind, part.low, out);
    }
    let whole = is_address(kind) && is_block(kind, part);
    if whole {
        write_block(kind, part, out)
    } else {
        write_range(kind, part, out)
    }
}

/// The text that is written for an interval means this interval.
pub fn written_interval_law(_kind: Kind, _part: Interval)
    requires { IsTrue (is_good _kind _part) }
    ensures { IsInterval _kind (interval_text _kind _part) _part }
{}

/// `is_whole_block` holds exactly for the whole blocks of values that share their first bits.
pub fn block_law(_kind: Kind, _part: Interval)
    requires { IsTrue (is_good _kind _part) }
    ensures { IsTrue (is_whole_block _kind _part) ↔ IsBlock _kind _part }
{}
