ghost use Rattle.std.specs.Prelude.{ℕ, List, ◌∷◌, ◌+◌, ◌≡◌, ◌↔◌, Some, ◌<◌, ◌≤◌, ◌^◌, IfOk, length, map, option_map};
ghost use Rattle.std.specs.Option.{ok_or};
ghost use Rattle.std.specs.Net.Grammar.{Parses};
ghost use Rattle.addr_text.specs.Times.{IsTime, longest_time};
ghost use Rattle.addr_text.specs.TimesRead.{letters_len, time_part, time_parts, duration_of, time_of};
ghost use Rattle.addr_text.specs.TimesView.{part_view, unit_views, IsAhead};
ghost use Rattle.addr_text.specs.ValuesRead.{bad_value};

use crate::number::leading_number;
use crate::value::BadValue;

/// The longest time that a text may mean, in milliseconds.
const LONGEST_TIME: u128 = 1_000_000_000_000_000;

/// The largest count of a part: 15 digits.
const LARGEST_COUNT: u64 = 999_999_999_999_999;

/// A unit of times.
#[derive(Clone, Copy)]
struct Unit {
    name: &'static [u8],
    /// Its milliseconds.
    ms: u32,
}

/// The units of times, the longest first.
const UNITS: [Unit; 5] = [
    Unit {
        name: b"d",
        ms: 86_400_000,
    },
    Unit {
        name: b"h",
        ms: 3_600_000,
    },
    Unit {
        name: b"m",
        ms: 60_000,
    },
    Unit {
        name: b"s",
        ms: 1_000,
    },
    Unit { name: b"ms", ms: 1 },
];

/// A count, the text between it and the next digit, and the text from that digit on.
#[derive(Clone, Copy)]
struct Part<'a> {
    count: u64,
    name: &'a [u8],
    behind: &'a [u8],
}

/// How many bytes there are before the first digit.
fn letters_len(text: &[u8]) -> usize
    ensures value { result ≡ letters_len text.now }
    ensures within { result ≤ length text.now }
{
    text.iter()
        .take_while(|byte| !char::from(**byte).is_digit(10))
        .count()
}

/// The first count of a text, with its unit.
#[tactic(auto, unfolding(crate::specs::TimesRead::time_part))]
fn first_part(text: &[u8]) -> Option<Part<'_>>
    ensures { option_map part_view result ≡ time_part text.now }
{
    let (count, len) = leading_number(text, 10, LARGEST_COUNT)?;
    if len > 15 {
        return None;
    }
    let rest = &text[len..];
    let letters = letters_len(rest);
    Some(Part {
        count,
        name: &rest[..letters],
        behind: &rest[letters..],
    })
}

/// The milliseconds of the parts read so far, the text after them, and the first part of that text.
#[derive(Clone, Copy)]
struct Reading<'a> {
    total: u128,
    rest: &'a [u8],
    part: Option<Part<'a>>,
}

/// Takes the part that comes next, if it is one of the unit.
fn take_part<'a>(reading: Reading<'a>, part: Part<'a>, unit: &Unit) -> Reading<'a>
    requires next { time_part reading.rest.now ≡ Some (part_view part) }
    requires ahead { IsAhead reading }
    requires room { reading.total ≤ 2 ^ 124 }
    ensures ahead { IsAhead result }
    ensures bound { result.total ≤ reading.entry.total + 2 ^ 96 }
    ensures step { (units : List (List ℕ × ℕ)) →
        time_parts ((unit.now.name.now, unit.now.ms) ∷ units) reading.entry.total reading.entry.rest.now
        ≡ time_parts units result.total result.rest.now }
{
    if part.name == unit.name {
        Reading {
            total: reading.total + u128::from(part.count) * u128::from(unit.ms),
            rest: part.behind,
            part: first_part(part.behind),
        }
    } else {
        reading
    }
}

/// Reads the part of a unit, if it comes next.
fn read_unit<'a>(reading: Reading<'a>, unit: &Unit) -> Reading<'a>
    requires ahead { IsAhead reading }
    requires room { reading.total ≤ 2 ^ 124 }
    ensures ahead { IsAhead result }
    ensures bound { result.total ≤ reading.entry.total + 2 ^ 96 }
    ensures step { (units : List (List ℕ × ℕ)) →
        time_parts ((unit.now.name.now, unit.now.ms) ∷ units) reading.entry.total reading.entry.rest.now
        ≡ time_parts units result.total result.rest.now }
{
    match reading.part {
        Some(part) => take_part(reading, part, unit),
        None => reading,
    }
}

/// The milliseconds of the parts of a text.
fn parts(units: &[Unit], text: &[u8], first: Option<Part<'_>>) -> Option<u128>
    requires first { option_map part_view first ≡ time_part text.now }
    requires few { length units.now ≤ 8 }
    ensures { result ≡ time_parts (unit_views units.now) 0 text.now }
{
    let mut reading = Reading {
        total: 0,
        rest: text,
        part: first,
    };
    for unit in units {
        reading = read_unit(reading, unit);
    }
    if reading.rest.is_empty() {
        Some(reading.total)
    } else {
        None
    }
}

#[tactic(auto, unfolding(crate::specs::TimesRead::duration_of))]
fn duration(text: &[u8]) -> Option<u128>
    ensures { result ≡ duration_of text.now }
{
    let first = first_part(text)?;
    if first.name.is_empty() {
        return Some(u128::from(first.count) * 1_000);
    }
    parts(&UNITS, text, Some(first))
}

#[tactic(auto, unfolding(crate::specs::TimesRead::time_of))]
fn parse_time(text: &[u8]) -> Option<u64>
    ensures { result ≡ time_of text.now }
{
    let ms = duration(text)?;
    if ms <= LONGEST_TIME {
        Some(ms as u64)
    } else {
        None
    }
}

/// The time that a text means, in milliseconds. The text is a count of seconds, or counts of days,
/// hours, minutes, seconds and milliseconds with their units. These come in this order, each at most
/// once.
///
/// # Errors
///
/// `BadValue` exactly if the text means no time, or a time of more than 1,000,000,000,000,000
/// milliseconds.
pub fn read_time(text: &[u8]) -> Result<u64, BadValue>
    ensures meaning { Parses IsTime text.now result }
    ensures value { result ≡ ok_or (time_of text.now) bad_value }
    ensures within { IfOk result (λ ms. ms ≤ longest_time) }
{
    parse_time(text).ok_or(BadValue)
}

/// No text means two times.
pub fn one_time_law(_text: &[u8])
    ensures { (m n : ℕ) → IsTime _text.now m → IsTime _text.now n → m ≡ n }
{}

/// `time_of` gives a number exactly for the texts that mean this time.
pub fn time_of_law(_text: &[u8])
    ensures { (n : ℕ) → IsTime _text.now n ↔ (time_of _text.now ≡ Some n) }
{}
