ghost use Rattle.std.specs.Prelude.{◌≡◌};
ghost use Rattle.frame_facts.specs.Links as links;

/// What a frame begins with.
#[derive(Clone, Copy, Debug, PartialEq, Eq)]
pub enum Link {
    /// The header of Ethernet.
    Ethernet,
    /// IPv4 or IPv6, with nothing before it.
    RawIp,
    /// IPv4, with nothing before it.
    RawIpv4,
    /// IPv6, with nothing before it.
    RawIpv6,
    /// The header of Linux's cooked capture, version 1.
    Cooked,
    /// The header of Linux's cooked capture, version 2.
    CookedTwo,
}

/// The meaning of a link type, as libpcap numbers them.
pub fn link_of(link_type: u32) -> Option<Link>
    ensures { result ≡ links.link_of link_type }
{
    match link_type {
        1 => Some(Link::Ethernet),
        12 | 14 | 101 => Some(Link::RawIp),
        113 => Some(Link::Cooked),
        228 => Some(Link::RawIpv4),
        229 => Some(Link::RawIpv6),
        276 => Some(Link::CookedTwo),
        _ => None,
    }
}
