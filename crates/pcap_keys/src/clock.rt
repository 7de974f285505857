ghost use Rattle.std.specs.Prelude.{◌≡◌, ◌≤◌, ◌+◌, length, take, drop, true, nat_lt};
ghost use Rattle.pcap_keys.specs.Clocks as clocks;
ghost use Rattle.pcap_keys.specs.Savefile.{number};

use crate::format::Order;
use crate::place::from_place;

/// How the times of an interface count.
#[derive(Clone, Copy, Debug, PartialEq, Eq)]
pub struct Clock {
    /// How many units a second has, if an option says so; else 1,000,000.
    pub units: Option<u64>,
    /// The seconds of the time 0, counted from 2^63 seconds before 1970, if an option says so; else the
    /// time 0 begins 1970.
    pub offset: Option<u64>,
}

/// The clock of an interface without options.
fn usual() -> Clock
    ensures { result ≡ clocks.usual }
{
    Clock {
        units: None,
        offset: None,
    }
}

/// What an earlier option said, or else this.
fn first_said(before: Option<u64>, value: u64) -> u64
    ensures { result ≡ clocks.first_said before value }
{
    match before {
        Some(before) => before,
        None => value,
    }
}

/// The units of a second that `if_tsresol` gives: a power of ten, or if its high bit is set a power of
/// two. `None` if the number has more than 64 bits.
fn units_of(resolution: u8) -> Option<u64>
    ensures { result ≡ clocks.units_of resolution }
{
    if resolution < 128 {
        10_u64.checked_pow(u32::from(resolution))
    } else {
        2_u64.checked_pow(u32::from(resolution - 128))
    }
}

fn offset_of(order: Order, value: &[u8]) -> u64
    requires { 8 ≤ length value.now }
    ensures { result ≡ clocks.offset_of order value.now }
{
    order.read_u64(value).wrapping_add(1 << 63)
}

/// The clock after one more option. `None` if the option's value isn't one of its code.
#[tactic(auto, unfolding(crate::specs::Clocks::with_option))]
fn with_option(order: Order, code: u16, value: &[u8], clock: Clock) -> Option<Clock>
    ensures { result ≡ clocks.with_option order code value.now clock }
{
    match code {
        9 => match value {
            [resolution] => with_units(clock, units_of(*resolution)),
            _ => None,
        },
        14 => {
            if value.len() == 8 {
                Some(Clock {
                    units: clock.units,
                    offset: Some(first_said(clock.offset, offset_of(order, value))),
                })
            } else {
                None
            }
        }
        _ => Some(clock),
    }
}

fn with_units(clock: Clock, units: Option<u64>) -> Option<Clock>
    ensures { result ≡ clocks.with_units clock units }
{
    match units {
        Some(units) => Some(Clock {
            units: Some(first_said(clock.units, units)),
            offset: clock.offset,
        }),
        None => None,
    }
}

fn has_option(order: Order, bytes: &[u8]) -> bool
    ensures same { result ≡ clocks.has_option order bytes.now }
    ensures room { result ≡ true → 4 ≤ length bytes.now }
{
    bytes.len() >= 4 && order.read_u16(bytes) != 0
}

fn value_size(order: Order, bytes: &[u8]) -> usize
    requires { 4 ≤ length bytes.now }
    ensures same { result ≡ clocks.value_size order bytes.now }
    ensures small { result ≤ 65535 }
{
    order.read_u16(&bytes[2..]) as usize
}

fn option_size(order: Order, bytes: &[u8]) -> usize
    requires { 4 ≤ length bytes.now }
    ensures same { result ≡ clocks.option_size order bytes.now }
    ensures value { 4 + clocks.value_size order bytes.now ≤ result }
{
    4 + (value_size(order, bytes) + 3) / 4 * 4
}

/// The clock after the first of these options.
fn after_option(order: Order, bytes: &[u8], clock: Clock) -> Option<Clock>
    requires { 4 + clocks.value_size order bytes.now ≤ length bytes.now }
    ensures { result ≡ clocks.with_option order (number order 2 bytes.now) (take (clocks.value_size order bytes.now) (drop 4 bytes.now)) clock }
{
    let size = value_size(order, bytes);
    with_option(order, order.read_u16(bytes), &bytes[4..4 + size], clock)
}

/// The clock of an interface with these options. `None` if an option isn't whole, or if its value isn't
/// one of its code.
pub fn clock_of(order: Order, options: &[u8]) -> Option<Clock>
    ensures { result ≡ clocks.options order (length options.now) options.now clocks.usual }
{
    let mut clock = usual();
    let mut bytes = options;
    'options: while has_option(order, bytes) {
        let size = option_size(order, bytes);
        if bytes.len() < size {
            return None;
        }
        match after_option(order, bytes, clock) {
            Some(next) => clock = next,
            None => return None,
        }
        bytes = from_place(bytes, size);
    }
    Some(clock)
}

/// The milliseconds from the origin of times to the time that a stamp says, rounded down.
pub fn time(clock: Clock, stamp: u64) -> u128
    ensures { result ≡ clocks.time clock stamp }
{
    let units = u128::from(first_said(clock.units, 1_000_000));
    let after = match (u128::from(stamp) * 1_000).checked_div(units) {
        Some(after) => after,
        None => 0,
    };
    after + u128::from(first_said(clock.offset, 1 << 63)) * 1_000
}
