ghost use Rattle.std.specs.Prelude.{ℕ, List, Some, Contains, ◌↔◌, ◌≢◌, ◌≡◌, ◌==◌, option_map, map, find, bytes_eq};
ghost use Rattle.std.specs.Option.{option_copied};
ghost use Rattle.addr_text.specs.Protocols.{written_protocols, other_protocols, IsProtocolName, number_in, protocol_number, protocol_name};

/// A protocol over IP that has a name.
#[derive(Clone, Copy)]
struct Protocol {
    name: &'static [u8],
    number: u8,
}

/// The protocols that are written by name (nft(8), the type `inet_proto`).
const WRITTEN: [Protocol; 11] = [
    Protocol {
        name: b"icmp",
        number: 1,
    },
    Protocol {
        name: b"igmp",
        number: 2,
    },
    Protocol {
        name: b"tcp",
        number: 6,
    },
    Protocol {
        name: b"udp",
        number: 17,
    },
    Protocol {
        name: b"dccp",
        number: 33,
    },
    Protocol {
        name: b"gre",
        number: 47,
    },
    Protocol {
        name: b"esp",
        number: 50,
    },
    Protocol {
        name: b"ah",
        number: 51,
    },
    Protocol {
        name: b"ipv6-icmp",
        number: 58,
    },
    Protocol {
        name: b"sctp",
        number: 132,
    },
    Protocol {
        name: b"udplite",
        number: 136,
    },
];

/// The names that are read and never written: `icmpv6` of nft, and all other names of `/etc/protocols`
/// in Debian's netbase.
const OTHER: [Protocol; 46] = [
    Protocol {
        name: b"ip",
        number: 0,
    },
    Protocol {
        name: b"hopopt",
        number: 0,
    },
    Protocol {
        name: b"ggp",
        number: 3,
    },
    Protocol {
        name: b"ipencap",
        number: 4,
    },
    Protocol {
        name: b"st",
        number: 5,
    },
    Protocol {
        name: b"egp",
        number: 8,
    },
    Protocol {
        name: b"igp",
        number: 9,
    },
    Protocol {
        name: b"pup",
        number: 12,
    },
    Protocol {
        name: b"hmp",
        number: 20,
    },
    Protocol {
        name: b"xns-idp",
        number: 22,
    },
    Protocol {
        name: b"rdp",
        number: 27,
    },
    Protocol {
        name: b"iso-tp4",
        number: 29,
    },
    Protocol {
        name: b"xtp",
        number: 36,
    },
    Protocol {
        name: b"ddp",
        number: 37,
    },
    Protocol {
        name: b"idpr-cmtp",
        number: 38,
    },
    Protocol {
        name: b"ipv6",
        number: 41,
    },
    Protocol {
        name: b"ipv6-route",
        number: 43,
    },
    Protocol {
        name: b"ipv6-frag",
        number: 44,
    },
    Protocol {
        name: b"idrp",
        number: 45,
    },
    Protocol {
        name: b"rsvp",
        number: 46,
    },
    Protocol {
        name: b"skip",
        number: 57,
    },
    Protocol {
        name: b"icmpv6",
        number: 58,
    },
    Protocol {
        name: b"ipv6-nonxt",
        number: 59,
    },
    Protocol {
        name: b"ipv6-opts",
        number: 60,
    },
    Protocol {
        name: b"rspf",
        number: 73,
    },
    Protocol {
        name: b"vmtp",
        number: 81,
    },
    Protocol {
        name: b"eigrp",
        number: 88,
    },
    Protocol {
        name: b"ospf",
        number: 89,
    },
    Protocol {
        name: b"ax.25",
        number: 93,
    },
    Protocol {
        name: b"ipip",
        number: 94,
    },
    Protocol {
        name: b"etherip",
        number: 97,
    },
    Protocol {
        name: b"encap",
        number: 98,
    },
    Protocol {
        name: b"pim",
        number: 103,
    },
    Protocol {
        name: b"ipcomp",
        number: 108,
    },
    Protocol {
        name: b"vrrp",
        number: 112,
    },
    Protocol {
        name: b"l2tp",
        number: 115,
    },
    Protocol {
        name: b"isis",
        number: 124,
    },
    Protocol {
        name: b"fc",
        number: 133,
    },
    Protocol {
        name: b"mobility-header",
        number: 135,
    },
    Protocol {
        name: b"mpls-in-ip",
        number: 137,
    },
    Protocol {
        name: b"manet",
        number: 138,
    },
    Protocol {
        name: b"hip",
        number: 139,
    },
    Protocol {
        name: b"shim6",
        number: 140,
    },
    Protocol {
        name: b"wesp",
        number: 141,
    },
    Protocol {
        name: b"rohc",
        number: 142,
    },
    Protocol {
        name: b"ethernet",
        number: 143,
    },
];

fn number_in(table: &[Protocol], name: &[u8]) -> Option<u8>
    ensures { result ≡ number_in (map (λ p. (p.name.now, p.number)) table.now) name.now }
{
    for protocol in table {
        if protocol.name == name {
            return Some(protocol.number);
        }
    }
    None
}

fn name_in(table: &[Protocol], number: u8) -> Option<&'static [u8]>
    ensures { option_copied result ≡ option_map (λ p. p.name.now) (find (λ p. p.number == number) table.now) }
{
    table
        .iter()
        .find(|protocol| protocol.number == number)
        .map(|protocol| protocol.name)
}

fn written_number(name: &[u8]) -> Option<u8>
    ensures { result ≡ number_in written_protocols name.now }
{
    number_in(&WRITTEN, name)
}

#[tactic(auto, unfolding(crate::specs::Protocols::other_protocols))]
fn other_number(name: &[u8]) -> Option<u8>
    ensures { result ≡ number_in other_protocols name.now }
{
    number_in(&OTHER, name)
}

/// The number of the protocol with this name.
pub(crate) fn protocol_number(name: &[u8]) -> Option<u8>
    ensures { result ≡ protocol_number name.now }
{
    match written_number(name) {
        Some(number) => Some(number),
        None => other_number(name),
    }
}

/// The name that is written for the protocol with this number, if there is one.
pub(crate) fn protocol_name(number: u8) -> Option<&'static [u8]>
    ensures { option_copied result ≡ protocol_name number }
{
    name_in(&WRITTEN, number)
}

/// No name means two protocols. A protocol has at most one name that is written. A name that is only
/// read is never written.
pub fn protocol_names_law()
    ensures names { (name : List ℕ) → (m n : ℕ) → IsProtocolName name m → IsProtocolName name n → m ≡ n }
    ensures written { (name : List ℕ) → (n : ℕ) → (protocol_name n ≡ Some name) ↔ Contains written_protocols (name, n) }
    ensures only_read { (name : List ℕ) → (m n : ℕ) → Contains other_protocols (name, m) → protocol_name n ≢ Some name }
{}
