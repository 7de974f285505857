ghost use Rattle.std.specs.Prelude.{◌≡◌, ◌≤◌, length};
ghost use Rattle.frame_facts.specs.Ip as ip;

use crate::facts::{Facts, Transport};
use crate::transport::{after_headers, later, whole};
use crate::wire::{after, u16_at, u32_at, u128_at};

/// Whether the first four bits are this version.
fn has_version(version: u8, packet: &[u8]) -> bool
    ensures { result ≡ ip.has_version version packet.now }
{
    !packet.is_empty() && packet[0] / 16 == version
}

/// How many bytes the header of an IPv4 packet has.
fn ipv4_header(packet: &[u8]) -> usize
    requires { 1 ≤ length packet.now }
    ensures { result ≡ ip.ipv4_header packet.now }
{
    4 * (packet[0] % 16) as usize
}

/// The place in its datagram at which a fragment begins.
fn fragment_offset(packet: &[u8]) -> u16
    requires { 8 ≤ length packet.now }
    ensures { result ≡ ip.fragment_offset packet.now }
{
    u16_at(packet, 6) % (1 << 13)
}

fn is_ipv4(packet: &[u8]) -> bool
    ensures { result ≡ ip.is_ipv4 packet.now }
{
    has_version(4, packet) && ipv4_header(packet) >= 20 && packet.len() >= 20
}

fn is_ipv6(packet: &[u8]) -> bool
    ensures { result ≡ ip.is_ipv6 packet.now }
{
    has_version(6, packet) && packet.len() >= 40
}

fn ipv4_transport(packet: &[u8]) -> Transport
    requires { 20 ≤ length packet.now }
    ensures { result ≡ ip.ipv4_transport packet.now }
{
    if fragment_offset(packet) == 0 {
        whole(packet[9], after(packet, ipv4_header(packet)))
    } else {
        later(packet[9])
    }
}

fn ipv4_facts(ether: Option<(u128, u128)>, packet: &[u8]) -> Facts
    requires { 20 ≤ length packet.now }
    ensures { result ≡ ip.ipv4_facts ether packet.now }
{
    Facts {
        ether,
        six: false,
        source: u128::from(u32_at(packet, 12)),
        dest: u128::from(u32_at(packet, 16)),
        transport: Some(ipv4_transport(packet)),
    }
}

fn ipv6_facts(ether: Option<(u128, u128)>, packet: &[u8]) -> Facts
    requires { 40 ≤ length packet.now }
    ensures { result ≡ ip.ipv6_facts ether packet.now }
{
    Facts {
        ether,
        six: true,
        source: u128_at(packet, 8),
        dest: u128_at(packet, 24),
        transport: after_headers(packet[6], after(packet, 40)),
    }
}

/// The facts of an IPv4 packet. `ether` has the addresses of the Ethernet frame that it is in.
pub fn ipv4(ether: Option<(u128, u128)>, packet: &[u8]) -> Option<Facts>
    ensures { result ≡ ip.ipv4 ether packet.now }
{
    if is_ipv4(packet) {
        Some(ipv4_facts(ether, packet))
    } else {
        None
    }
}

/// The facts of an IPv6 packet.
pub fn ipv6(ether: Option<(u128, u128)>, packet: &[u8]) -> Option<Facts>
    ensures { result ≡ ip.ipv6 ether packet.now }
{
    if is_ipv6(packet) {
        Some(ipv6_facts(ether, packet))
    } else {
        None
    }
}

/// The facts of an IP packet. Its version says whether it is IPv4 or IPv6.
pub fn raw_ip(packet: &[u8]) -> Option<Facts>
    ensures { result ≡ ip.raw_ip packet.now }
{
    if has_version(6, packet) {
        ipv6(None, packet)
    } else {
        ipv4(None, packet)
    }
}
