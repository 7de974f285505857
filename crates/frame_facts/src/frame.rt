ghost use Rattle.std.specs.Prelude.{◌≡◌, IfSome};
ghost use Rattle.frame_facts.specs.Links as links;
ghost use Rattle.frame_facts.specs.Values.{HaveFieldBits};

use crate::cooked::{cooked, cooked_two};
use crate::ethernet::ethernet;
use crate::facts::Facts;
use crate::ip::{ipv4, ipv6, raw_ip};
use crate::link::Link;

fn by_link(link: Link, frame: &[u8]) -> Option<Facts>
    ensures { result ≡ links.facts link frame.now }
{
    match link {
        Link::Ethernet => ethernet(frame),
        Link::RawIp => raw_ip(frame),
        Link::RawIpv4 => ipv4(None, frame),
        Link::RawIpv6 => ipv6(None, frame),
        Link::Cooked => cooked(frame),
        Link::CookedTwo => cooked_two(frame),
    }
}

/// The facts of a frame, of which these bytes were kept. `None` if it isn't a packet of IP, or if a
/// byte up to the end of its addresses is missing.
pub fn facts_of(link: Link, frame: &[u8]) -> Option<Facts>
    // These are the facts of the frame.
    ensures same { result ≡ links.facts link frame.now }
    // Addresses, protocol and ports have no more bits than their fields.
    ensures bits { IfSome result HaveFieldBits }
{
    by_link(link, frame)
}
