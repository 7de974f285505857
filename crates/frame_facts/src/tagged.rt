ghost use Rattle.std.specs.Prelude.{◌≡◌};
ghost use Rattle.frame_facts.specs.Links as links;

use crate::facts::Facts;
use crate::ip::{ipv4, ipv6};
use crate::wire::{after, u16_at};

fn by_type(ether: Option<(u128, u128)>, ether_type: u16, packet: &[u8]) -> Option<Facts>
    ensures { result ≡ links.by_type ether ether_type packet.now }
{
    match ether_type {
        0x0800 => ipv4(ether, packet),
        0x86dd => ipv6(ether, packet),
        _ => None,
    }
}

fn is_tag(ether_type: u16) -> bool
    ensures { result ≡ links.is_tag ether_type }
{
    matches!(ether_type, 0x8100 | 0x88a8)
}

#[tactic(auto, unfolding(crate::specs::Links::one_tag))]
fn one_tag(ether: Option<(u128, u128)>, ether_type: u16, bytes: &[u8]) -> Option<Facts>
    ensures { result ≡ links.one_tag ether ether_type bytes.now }
{
    if !is_tag(ether_type) {
        return by_type(ether, ether_type, bytes);
    }
    if bytes.len() < 4 {
        return None;
    }
    by_type(ether, u16_at(bytes, 2), after(bytes, 4))
}

/// The facts of what follows a type of Ethernet, under at most two VLAN tags.
#[tactic(auto, unfolding(crate::specs::Links::two_tags))]
pub fn two_tags(ether: Option<(u128, u128)>, ether_type: u16, bytes: &[u8]) -> Option<Facts>
    ensures { result ≡ links.two_tags ether ether_type bytes.now }
{
    if !is_tag(ether_type) {
        return by_type(ether, ether_type, bytes);
    }
    if bytes.len() < 4 {
        return None;
    }
    one_tag(ether, u16_at(bytes, 2), after(bytes, 4))
}
