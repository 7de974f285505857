//! The words that take a value from a packet: a plan's, and those of nft's rules.
use set_model::Kind;

/// The plan's words for a field of a type.
pub fn selectors_of(kind: Kind) -> &'static [u8] {
    match kind {
        Kind::Ipv4 => b"ip_saddr or ip_daddr",
        Kind::Ipv6 => b"ip6_saddr or ip6_daddr",
        Kind::Ether => b"ether_saddr or ether_daddr",
        Kind::Proto => b"proto",
        Kind::Service => b"sport or dport",
        Kind::Mark => b"",
    }
}

/// One of the plan's words for a field of a type. A mark has none.
pub fn selector_of(kind: Kind) -> Option<&'static [u8]> {
    match kind {
        Kind::Ipv4 => Some(b"ip_saddr"),
        Kind::Ipv6 => Some(b"ip6_saddr"),
        Kind::Ether => Some(b"ether_saddr"),
        Kind::Proto => Some(b"proto"),
        Kind::Service => Some(b"dport"),
        Kind::Mark => None,
    }
}

/// A field of a packet that two words of nft's rules name: the plan's word for it, and its type.
#[derive(Clone, Copy)]
pub struct Selected {
    /// The plan's word. A mark has none.
    pub selector: &'static [u8],
    /// The type.
    pub kind: Kind,
}

fn field_of(selector: &'static [u8], kind: Kind) -> Option<Selected> {
    Some(Selected { selector, kind })
}

/// The port that a word of nft's rules names.
fn port_named(word: &[u8]) -> Option<Selected> {
    match word {
        b"sport" => field_of(b"sport", Kind::Service),
        b"dport" => field_of(b"dport", Kind::Service),
        _ => None,
    }
}

/// The field of a packet that these two words of nft's rules name.
pub fn field_named(first: &[u8], second: &[u8]) -> Option<Selected> {
    match first {
        b"tcp" | b"udp" | b"sctp" | b"dccp" | b"udplite" | b"th" => port_named(second),
        b"ip" => match second {
            b"saddr" => field_of(b"ip_saddr", Kind::Ipv4),
            b"daddr" => field_of(b"ip_daddr", Kind::Ipv4),
            b"protocol" => field_of(b"proto", Kind::Proto),
            _ => None,
        },
        b"ip6" => match second {
            b"saddr" => field_of(b"ip6_saddr", Kind::Ipv6),
            b"daddr" => field_of(b"ip6_daddr", Kind::Ipv6),
            b"nexthdr" => field_of(b"proto", Kind::Proto),
            _ => None,
        },
        b"ether" => match second {
            b"saddr" => field_of(b"ether_saddr", Kind::Ether),
            b"daddr" => field_of(b"ether_daddr", Kind::Ether),
            _ => None,
        },
        b"meta" => match second {
            b"l4proto" => field_of(b"proto", Kind::Proto),
            b"mark" => field_of(b"", Kind::Mark),
            _ => None,
        },
        _ => None,
    }
}

/// Wireshark's names of a packet's fields: the plan's word for each, and its type.
const WIRESHARK: [(&[u8], &[u8], Kind); 14] = [
    (b"ip.src", b"ip_saddr", Kind::Ipv4),
    (b"ip.dst", b"ip_daddr", Kind::Ipv4),
    (b"ipv6.src", b"ip6_saddr", Kind::Ipv6),
    (b"ipv6.dst", b"ip6_daddr", Kind::Ipv6),
    (b"eth.src", b"ether_saddr", Kind::Ether),
    (b"eth.dst", b"ether_daddr", Kind::Ether),
    (b"ip.proto", b"proto", Kind::Proto),
    (b"ipv6.nxt", b"proto", Kind::Proto),
    (b"tcp.srcport", b"sport", Kind::Service),
    (b"tcp.dstport", b"dport", Kind::Service),
    (b"udp.srcport", b"sport", Kind::Service),
    (b"udp.dstport", b"dport", Kind::Service),
    (b"sctp.srcport", b"sport", Kind::Service),
    (b"sctp.dstport", b"dport", Kind::Service),
];

/// The field of a packet that a name of Wireshark's means.
pub fn field_in_wireshark(name: &[u8]) -> Option<Selected> {
    for (other, selector, kind) in &WIRESHARK {
        if *other == name {
            return field_of(*selector, *kind);
        }
    }
    None
}
