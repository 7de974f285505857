ghost use Rattle.std.specs.Prelude.{ℕ, ◌≡◌, ◌↔◌, Some, ◌<◌, ◌≤◌, ◌^◌, ◌-◌, IfOk, IfSome, IsTrue, length, map, find, option_map};
ghost use Rattle.std.specs.Option.{ok_or};
ghost use Rattle.std.specs.Net.Grammar.{Parses};
ghost use Rattle.set_model.specs.Key.{is_good};
ghost use Rattle.set_model.specs.Kind.{bits_of};
ghost use Rattle.addr_text.specs.Intervals.{block_of, IsInterval};
ghost use Rattle.addr_text.specs.IntervalsRead.{plain_len, stands_first, dashed_end, first_end, prefix_of, range_of, interval_behind, interval_of};
ghost use Rattle.addr_text.specs.ValuesRead.{value_of, bad_value};

use crate::value::{BadValue, parse_value, read_number};
use set_model::{Interval, Kind};

/// The protocol names that contain a `-`.
const DASHED: [&[u8]; 10] = [
    b"xns-idp",
    b"iso-tp4",
    b"idpr-cmtp",
    b"ipv6-route",
    b"ipv6-frag",
    b"ipv6-icmp",
    b"ipv6-nonxt",
    b"ipv6-opts",
    b"mobility-header",
    b"mpls-in-ip",
];

/// How many bytes come before the first `-` or `/`.
fn plain_len(text: &[u8]) -> usize
    ensures value { result ≡ plain_len text.now }
    ensures within { result ≤ length text.now }
{
    text.iter()
        .take_while(|byte| **byte != b'-' && **byte != b'/')
        .count()
}

/// Whether a text begins with a name, and then ends or goes on with a `-` or a `/`.
fn stands_first(text: &[u8], name: &[u8]) -> bool
    ensures value { result ≡ stands_first text.now name.now }
    ensures within { IsTrue result → length name.now ≤ length text.now }
{
    match text.strip_prefix(name) {
        Some(behind) => plain_len(behind) == 0,
        None => false,
    }
}

/// The length of the first of these names with which the text begins.
fn first_name(names: &[&[u8]], text: &[u8]) -> Option<usize>
    ensures value { result ≡ option_map length (find (stands_first text.now) (map (λ name. name.now) names.now)) }
    ensures within { IfSome result (λ len. len ≤ length text.now) }
{
    for name in names {
        if stands_first(text, name) {
            return Some(name.len());
        }
    }
    None
}

/// The end of a protocol name that contains a `-` and begins the text.
#[tactic(auto, unfolding(crate::specs::IntervalsRead::dashed_end, crate::specs::IntervalsRead::dashed_names))]
fn dashed_end(text: &[u8]) -> Option<usize>
    ensures value { result ≡ dashed_end text.now }
    ensures within { IfSome result (λ end. end ≤ length text.now) }
{
    first_name(&DASHED, text)
}

/// The end of a text's first value. The value is a protocol name that contains a `-`, or else all
/// before the first `-` or `/`.
#[tactic(auto, unfolding(crate::specs::IntervalsRead::first_end))]
fn first_end(kind: Kind, text: &[u8]) -> usize
    ensures value { result ≡ first_end kind text.now }
    ensures within { result ≤ length text.now }
{
    if kind == Kind::Proto {
        if let Some(end) = dashed_end(text) {
            return end;
        }
    }
    plain_len(text)
}

/// The block of all values that share the first `fixed` of so many bits with a value.
pub(crate) fn block(bits: u32, fixed: u32, value: u128) -> Interval
    requires fixed { fixed ≤ bits }
    requires bits { bits ≤ 128 }
    requires fits { value < 2 ^ bits }
    ensures { result ≡ block_of bits fixed value }
{
    let host = bits - fixed;
    if host == 128 {
        return Interval {
            low: 0,
            high: u128::MAX,
        };
    }
    let low = value >> host << host;
    Interval {
        low,
        high: low + ((1u128 << host) - 1),
    }
}

#[tactic(auto, unfolding(crate::specs::IntervalsRead::prefix_of))]
fn prefix(kind: Kind, value: u128, digits: &[u8]) -> Option<Interval>
    requires { value < 2 ^ bits_of kind }
    ensures { result ≡ prefix_of kind value digits.now }
{
    let bits = kind.bits();
    let fixed = read_number(digits, u64::from(bits))?;
    Some(block(bits, fixed as u32, value))
}

#[tactic(auto, unfolding(crate::specs::IntervalsRead::range_of))]
fn range(kind: Kind, low: u128, behind: &[u8]) -> Option<Interval>
    ensures { result ≡ range_of kind low behind.now }
{
    let high = parse_value(kind, behind)?;
    if low <= high {
        Some(Interval { low, high })
    } else {
        None
    }
}

#[tactic(auto, unfolding(crate::specs::IntervalsRead::interval_behind))]
fn interval_behind(kind: Kind, value: u128, behind: &[u8]) -> Option<Interval>
    requires { value < 2 ^ bits_of kind }
    ensures { result ≡ interval_behind kind value behind.now }
{
    match behind {
        [] => Some(Interval {
            low: value,
            high: value,
        }),
        [b'/', digits @ ..] => prefix(kind, value, digits),
        [b'-', high @ ..] => range(kind, value, high),
        _ => None,
    }
}

#[tactic(auto, unfolding(crate::specs::IntervalsRead::interval_of))]
fn parse_interval(kind: Kind, text: &[u8]) -> Option<Interval>
    ensures { result ≡ interval_of kind text.now }
{
    let end = first_end(kind, text);
    let value = parse_value(kind, &text[..end])?;
    interval_behind(kind, value, &text[end..])
}

/// The interval of a kind that a text means. The text is one of three: a value; a value, `/` and the
/// number of its fixed bits; or two values with `-` between them, the second no lower. With `/` the
/// host bits are dropped.
///
/// # Errors
///
/// `BadValue` exactly if the text means no interval of the kind.
pub fn read_interval(kind: Kind, text: &[u8]) -> Result<Interval, BadValue>
    ensures meaning { Parses (IsInterval kind) text.now result }
    ensures value { result ≡ ok_or (interval_of kind text.now) bad_value }
    ensures good { IfOk result (λ part. IsTrue (is_good kind part)) }
{
    parse_interval(kind, text).ok_or(BadValue)
}

/// No text means two intervals of a kind.
pub fn one_interval_law(_kind: Kind, _text: &[u8])
    ensures { (x y : Interval) → IsInterval _kind _text.now x → IsInterval _kind _text.now y → x ≡ y }
{}

/// `interval_of` gives an interval exactly for the texts that mean it.
pub fn interval_of_law(_kind: Kind, _text: &[u8])
    ensures { (x : Interval) → IsInterval _kind _text.now x ↔ (interval_of _kind _text.now ≡ Some x) }
{}
