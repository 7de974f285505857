ghost use Rattle.std.specs.Prelude.{ℕ, ◌≡◌, ◌↔◌, Some, ◌<◌, ◌≤◌, ◌^◌, ◌==◌, length, option_map, IfOk, IfSome, IsTrue};
ghost use Rattle.std.specs.Option.{ok_or, option_or};
ghost use Rattle.std.specs.Net.Reader as Reader;
ghost use Rattle.std.specs.Net.Grammar.{Parses};
ghost use Rattle.set_model.specs.Kind.{bits_of};
ghost use Rattle.set_model.specs.Key.{is_value};
ghost use Rattle.addr_text.specs.Numbers.{big_endian};
ghost use Rattle.addr_text.specs.Protocols.{protocol_number};
ghost use Rattle.addr_text.specs.Values.{IsValue};
ghost use Rattle.addr_text.specs.ValuesRead.{whole_number, number_of, hex_of, read_octet, next_octet, ether_behind, ether_of, mark_of, value_of, bad_value};

use crate::number::leading_number;
use crate::protocol::protocol_number;
use set_model::Kind;
use std::net::{Ipv4Addr, Ipv6Addr};

/// The text means no value, interval or time.
#[derive(Clone, Copy, Debug, PartialEq, Eq)]
pub struct BadValue;

/// The number that the whole text is, at most `most`.
#[tactic(auto, unfolding(crate::specs::ValuesRead::whole_number))]
fn whole_number(text: &[u8], radix: u32, most: u64) -> Option<u64>
    requires low { 2 ≤ radix }
    requires high { radix ≤ 16 }
    requires room { most < 2 ^ 56 }
    ensures value { result ≡ whole_number radix most text.now }
    ensures within { IfSome result (λ n. n ≤ most) }
{
    let (value, len) = leading_number(text, radix, most)?;
    if len == text.len() { Some(value) } else { None }
}

/// The number that a text is, at most `most`, in decimal digits without a leading zero; `None` exactly
/// if the text isn't one.
#[tactic(auto, unfolding(crate::specs::ValuesRead::number_of))]
pub fn read_number(text: &[u8], most: u64) -> Option<u64>
    requires { most < 2 ^ 56 }
    ensures value { result ≡ number_of most text.now }
    ensures within { IfSome result (λ n. n ≤ most) }
{
    if text.len() > 1 && text[0] == b'0' {
        return None;
    }
    whole_number(text, 10, most)
}

#[tactic(auto, unfolding(crate::specs::ValuesRead::hex_of))]
fn read_hex(text: &[u8], longest: usize) -> Option<u64>
    ensures { result ≡ hex_of longest text.now }
{
    if text.len() > longest {
        return None;
    }
    whole_number(text, 16, 0xffff_ffff)
}

#[tactic(auto, unfolding(crate::specs::ValuesRead::mark_of))]
fn read_mark(text: &[u8]) -> Option<u64>
    ensures { result ≡ mark_of text.now }
{
    match text {
        [b'0', b'x', digits @ ..] => read_hex(digits, 8),
        _ => read_number(text, 0xffff_ffff),
    }
}

/// One or two hexadecimal digits at the front, as a number, and the text after them.
#[tactic(auto, unfolding(crate::specs::ValuesRead::read_octet))]
fn leading_octet(text: &[u8]) -> Option<(u8, &[u8])>
    ensures { Reader.read_view (λ n. n) result ≡ read_octet text.now }
{
    let (value, len) = leading_number(text, 16, 255)?;
    if len > 2 {
        return None;
    }
    Some((value as u8, &text[len..]))
}

/// A colon and an octet.
fn next_octet(text: &[u8]) -> Option<(u8, &[u8])>
    ensures { Reader.read_view (λ n. n) result ≡ next_octet text.now }
{
    match text {
        [b':', group @ ..] => leading_octet(group),
        _ => None,
    }
}

#[tactic(auto, unfolding(crate::specs::ValuesRead::ether_of, crate::specs::ValuesRead::ether_behind))]
fn read_ether(text: &[u8]) -> Option<u64>
    ensures { result ≡ ether_of text.now }
{
    let (first, mut rest) = leading_octet(text)?;
    let mut value = u64::from(first);
    for _ in 0..5usize {
        let Some((octet, behind)) = next_octet(rest) else {
            return None;
        };
        value = value * 256 + u64::from(octet);
        rest = behind;
    }
    if rest.is_empty() { Some(value) } else { None }
}

fn read_ipv4(text: &[u8]) -> Option<u128>
    ensures { result ≡ option_map (big_endian 256) (Reader.whole_value (Reader.read_ipv4 text.now)) }
{
    match Ipv4Addr::parse_ascii(text) {
        Ok(address) => Some(u128::from(address.to_bits())),
        Err(_) => None,
    }
}

/// The number of an address with these eight segments.
fn address_value(segments: &[u16]) -> u128
    requires { length segments.now ≤ 8 }
    ensures { result ≡ big_endian 65536 segments.now }
{
    let mut value = 0u128;
    for segment in segments {
        value = value * 65536 + u128::from(*segment);
    }
    value
}

fn read_ipv6(text: &[u8]) -> Option<u128>
    ensures { result ≡ option_map (big_endian 65536) (Reader.whole_value (Reader.read_ipv6 text.now)) }
{
    match Ipv6Addr::parse_ascii(text) {
        Ok(address) => Some(address_value(&address.segments())),
        Err(_) => None,
    }
}

fn read_protocol(text: &[u8]) -> Option<u64>
    ensures { result ≡ option_or (number_of 255 text.now) (protocol_number text.now) }
{
    match read_number(text, 255) {
        Some(number) => Some(number),
        None => protocol_number(text).map(u64::from),
    }
}

/// The value of a kind that a text means, if it means one.
#[tactic(auto, unfolding(crate::specs::ValuesRead::value_of))]
pub(crate) fn parse_value(kind: Kind, text: &[u8]) -> Option<u128>
    ensures { result ≡ value_of kind text.now }
{
    match kind {
        Kind::Ipv4 => read_ipv4(text),
        Kind::Ipv6 => read_ipv6(text),
        Kind::Ether => read_ether(text).map(u128::from),
        Kind::Proto => read_protocol(text).map(u128::from),
        Kind::Service => read_number(text, 0xffff).map(u128::from),
        Kind::Mark => read_mark(text).map(u128::from),
    }
}

/// The value of a kind that a text means. The text is an IPv4 address of four octets, an IPv6 address
/// by RFC 4291, or an Ethernet address of six octets. Or it is a protocol's name or number, a port, or
/// a mark in decimal or after `0x`. IPv6 addresses have any of the three forms of RFC 4291.
///
/// # Errors
///
/// `BadValue` exactly if the text means no value of the kind.
pub fn read_value(kind: Kind, text: &[u8]) -> Result<u128, BadValue>
    ensures meaning { Parses (IsValue kind) text.now result }
    ensures value { result ≡ ok_or (value_of kind text.now) bad_value }
    ensures fits { IfOk result (λ n. IsTrue (is_value kind n)) }
{
    parse_value(kind, text).ok_or(BadValue)
}

/// No text means two values of a kind.
pub fn one_value_law(_kind: Kind, _text: &[u8])
    ensures { (m n : ℕ) → IsValue _kind _text.now m → IsValue _kind _text.now n → m ≡ n }
{}

/// A value of a kind has at most the kind's bits.
pub fn value_bits_law(_kind: Kind, _text: &[u8])
    ensures { (n : ℕ) → IsValue _kind _text.now n → n < 2 ^ bits_of _kind }
{}

/// `value_of` gives a number exactly for the texts that mean this value.
pub fn value_of_law(_kind: Kind, _text: &[u8])
    ensures { (n : ℕ) → IsValue _kind _text.now n ↔ (value_of _kind _text.now ≡ Some n) }
{}
