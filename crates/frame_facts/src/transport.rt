ghost use Rattle.std.specs.Prelude.{◌≡◌, ◌≤◌, ◌+◌, suc, length, drop};
ghost use Rattle.frame_facts.specs.Transports as transports;

use crate::facts::Transport;
use crate::wire::{after, u16_at};

/// Whether a protocol's header begins with ports.
fn has_ports(protocol: u8) -> bool
    ensures { result ≡ transports.has_ports protocol }
{
    matches!(protocol, 6 | 17 | 33 | 132 | 136)
}

/// The source and the destination port of a protocol whose header begins these bytes.
fn ports_of(protocol: u8, header: &[u8]) -> Option<(u32, u32)>
    ensures { result ≡ transports.ports_of protocol header.now }
{
    if has_ports(protocol) && header.len() >= 4 {
        Some((u32::from(u16_at(header, 0)), u32::from(u16_at(header, 2))))
    } else {
        None
    }
}

/// A protocol whose header begins these bytes.
pub fn whole(protocol: u8, header: &[u8]) -> Transport
    ensures { result ≡ transports.whole protocol header.now }
{
    Transport {
        proto: u32::from(protocol),
        ports: ports_of(protocol, header),
    }
}

/// A protocol whose header is in an earlier fragment.
pub fn later(protocol: u8) -> Transport
    ensures { result ≡ transports.later protocol }
{
    Transport {
        proto: u32::from(protocol),
        ports: None,
    }
}

/// Whether a next header is an extension header, which has a next header of its own.
fn is_extension(next: u8) -> bool
    ensures { result ≡ transports.is_extension next }
{
    matches!(next, 0 | 43 | 44 | 51 | 60)
}

/// How many bytes an extension header has.
fn extension_size(next: u8, header: &[u8]) -> usize
    requires { 8 ≤ length header.now }
    ensures same { result ≡ transports.extension_size next header.now }
    ensures some { 8 ≤ result }
{
    match next {
        44 => 8,
        51 => 4 * (header[1] as usize + 2),
        _ => 8 * (header[1] as usize + 1),
    }
}

fn is_later_fragment(next: u8, header: &[u8]) -> bool
    requires { 8 ≤ length header.now }
    ensures { result ≡ transports.is_later_fragment next header.now }
{
    next == 44 && u16_at(header, 2) / 8 != 0
}

/// What a later fragment carries, by the next header of its fragment header.
fn later_fragment(next: u8) -> Option<Transport>
    ensures { result ≡ transports.later_fragment next }
{
    if is_extension(next) {
        None
    } else {
        Some(later(next))
    }
}

/// What an IPv6 packet carries after its extension headers. `None` if one of them has fewer than eight
/// kept bytes, or is in an earlier fragment.
pub fn after_headers(first: u8, payload: &[u8]) -> Option<Transport>
    ensures { result ≡ transports.after_headers (suc (length payload.now)) first payload.now }
{
    let mut next = first;
    let mut bytes = payload;
    'headers: while is_extension(next) {
        if bytes.len() < 8 {
            return None;
        }
        if is_later_fragment(next, bytes) {
            return later_fragment(bytes[0]);
        }
        let size = extension_size(next, bytes);
        next = bytes[0];
        bytes = after(bytes, size);
    }
    Some(whole(next, bytes))
}
