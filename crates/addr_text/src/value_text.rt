ghost use Rattle.std.specs.Prelude.{ℕ, ◌≡◌, ◌++◌, ◌∷◌, [], ◌≤◌, ◌<◌, ◌^◌, ◌/◌, ◌%◌, OnOk, OnErr, IsTrue, decimal, codes, unwrap_or, length};
ghost use Rattle.std.specs.Char.{digit_char};
ghost use Rattle.std.specs.List.{join_with_byte};
ghost use Rattle.std.specs.Net.Text.{ipv4_text, hex_groups_text};
ghost use Rattle.std.specs.Prelude.{map};
ghost use Rattle.set_model.specs.Key.{is_value, is_good};
ghost use Rattle.addr_text.specs.Protocols.{protocol_name};
ghost use Rattle.addr_text.specs.Values.{IsValue};
ghost use Rattle.addr_text.specs.Written.{places, hex_text, value_text};

use crate::append::{append, append_display};
use crate::protocol::protocol_name;
use set_model::{Kind, Memory};
use std::net::{Ipv4Addr, Ipv6Addr};

/// The hexadecimal digit of a number at the place with this weight.
fn hex_digit(n: u64, weight: u64) -> u8
    requires { 0 < weight }
    ensures { result ≡ digit_char (n / weight % 16) }
{
    let digit = (n / weight % 16) as u8;
    if digit < 10 {
        b'0' + digit
    } else {
        b'a' + (digit - 10)
    }
}

/// The octet of a number at the place with this weight.
fn octet(n: u64, weight: u64) -> u8
    requires { 0 < weight }
    ensures { result ≡ n / weight % 256 }
{
    (n / weight % 256) as u8
}

/// A hexadecimal digit of the octet of a number at the place with this weight.
fn octet_digit(n: u64, weight: u64, place: u64) -> u8
    requires weight { 0 < weight }
    requires place { 0 < place }
    ensures { result ≡ digit_char (n / weight % 256 / place % 16) }
{
    hex_digit(u64::from(octet(n, weight)), place)
}

/// The 16 bits of a number at the place with this weight.
fn segment(n: u128, weight: u128) -> u16
    requires { 0 < weight }
    ensures { result ≡ n / weight % 65536 }
{
    (n / weight % 65536) as u16
}

fn write_ipv4(n: u32, out: &mut Vec<u8>) -> Result<(), Memory>
    ensures ok { OnOk result (out.new.items ≡ out.old.items ++ ipv4_text (places 256 4 n)) }
    ensures err { OnErr result (out.new.items ≡ out.old.items) }
{
    let bits = u64::from(n);
    let address = Ipv4Addr::new(
        octet(bits, 0x100_0000),
        octet(bits, 0x1_0000),
        octet(bits, 0x100),
        octet(bits, 1),
    );
    append_display(out, address)
}

fn write_ipv6(n: u128, out: &mut Vec<u8>) -> Result<(), Memory>
    ensures ok { OnOk result (out.new.items ≡ out.old.items ++ hex_groups_text (places 65536 8 n)) }
    ensures err { OnErr result (out.new.items ≡ out.old.items) }
{
    let address = Ipv6Addr::new(
        segment(n, 1 << 112),
        segment(n, 1 << 96),
        segment(n, 1 << 80),
        segment(n, 1 << 64),
        segment(n, 1 << 48),
        segment(n, 1 << 32),
        segment(n, 1 << 16),
        segment(n, 1),
    );
    append_display(out, address.hex_groups())
}

fn write_ether(n: u64, out: &mut Vec<u8>) -> Result<(), Memory>
    ensures ok { OnOk result (out.new.items ≡ out.old.items ++ join_with_byte 58 (map (hex_text 2) (places 256 6 n))) }
    ensures err { OnErr result (out.new.items ≡ out.old.items) }
{
    append(
        out,
        &[
            octet_digit(n, 0x100_0000_0000, 16),
            octet_digit(n, 0x100_0000_0000, 1),
            b':',
            octet_digit(n, 0x1_0000_0000, 16),
            octet_digit(n, 0x1_0000_0000, 1),
            b':',
            octet_digit(n, 0x100_0000, 16),
            octet_digit(n, 0x100_0000, 1),
            b':',
            octet_digit(n, 0x1_0000, 16),
            octet_digit(n, 0x1_0000, 1),
            b':',
            octet_digit(n, 0x100, 16),
            octet_digit(n, 0x100, 1),
            b':',
            octet_digit(n, 1, 16),
            octet_digit(n, 1, 1),
        ],
    )
}

fn write_protocol(n: u8, out: &mut Vec<u8>) -> Result<(), Memory>
    ensures ok { OnOk result (out.new.items ≡ out.old.items ++ unwrap_or (protocol_name n) (decimal n)) }
    ensures err { OnErr result (out.new.items ≡ out.old.items) }
{
    match protocol_name(n) {
        Some(name) => append(out, name),
        None => append_display(out, n),
    }
}

fn write_mark(n: u64, out: &mut Vec<u8>) -> Result<(), Memory>
    ensures ok { OnOk result (out.new.items ≡ out.old.items ++ (codes "0x" ++ hex_text 8 n)) }
    ensures err { OnErr result (out.new.items ≡ out.old.items) }
{
    append(
        out,
        &[
            b'0',
            b'x',
            hex_digit(n, 0x1000_0000),
            hex_digit(n, 0x100_0000),
            hex_digit(n, 0x10_0000),
            hex_digit(n, 0x1_0000),
            hex_digit(n, 0x1000),
            hex_digit(n, 0x100),
            hex_digit(n, 0x10),
            hex_digit(n, 1),
        ],
    )
}

/// Appends the text of a value of a kind. An IPv4 address has dots, an IPv6 address is written by RFC
/// 5952 without a dotted tail, and an Ethernet address is six pairs of digits. A protocol is its name
/// if it has one, a port is decimal, and a mark is `0x` and eight digits.
///
/// # Errors
///
/// `Memory` if memory runs out; `out` is then as before.
#[tactic(auto, unfolding(crate::specs::Written::value_text))]
pub fn write_value(kind: Kind, value: u128, out: &mut Vec<u8>) -> Result<(), Memory>
    requires { IsTrue (is_value kind value) }
    ensures ok { OnOk result (out.new.items ≡ out.old.items ++ value_text kind value) }
    ensures err { OnErr result (out.new.items ≡ out.old.items) }
{
    match kind {
        Kind::Ipv4 => write_ipv4(value as u32, out),
        Kind::Ipv6 => write_ipv6(value, out),
        Kind::Ether => write_ether(value as u64, out),
        Kind::Proto => write_protocol(value as u8, out),
        Kind::Service => append_display(out, value as u16),
        Kind::Mark => write_mark(value as u64, out),
    }
}

/// The text that is written for a value means this value.
pub fn written_value_law(_kind: Kind, _value: u128)
    requires { IsTrue (is_value _kind _value) }
    ensures { IsValue _kind (value_text _kind _value) _value }
{}
