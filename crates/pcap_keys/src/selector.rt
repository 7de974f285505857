ghost use Rattle.std.specs.Prelude.{◌≡◌};
ghost use Rattle.pcap_keys.specs.Selectors as selectors;
ghost use Rattle.frame_facts.specs.Values as values;

use frame_facts::{Facts, Transport};
use set_model::{Duplicate, Kind, Listed, Memory};
use std::alloc::Global;

/// The fact from which a field of a key is taken.
#[derive(Clone, Copy, Debug, PartialEq, Eq)]
pub enum Selector {
    /// `ip_saddr`: the source address of IPv4.
    IpSource,
    /// `ip_daddr`: the destination address of IPv4.
    IpDest,
    /// `ip6_saddr`: the source address of IPv6.
    Ip6Source,
    /// `ip6_daddr`: the destination address of IPv6.
    Ip6Dest,
    /// `ether_saddr`: the source address of the Ethernet frame.
    EtherSource,
    /// `ether_daddr`: the destination address of the Ethernet frame.
    EtherDest,
    /// `proto`: the number of the protocol.
    Proto,
    /// `sport`: the source port.
    SourcePort,
    /// `dport`: the destination port.
    DestPort,
}

impl Duplicate for Selector {
    fn copy(&self, _: Global) -> Result<Self, Memory> {
        Ok(*self)
    }
}

/// One selector per field of a set.
pub type Selectors = Listed<Selector>;

/// A line of a plan: a set, and the facts from which its keys are taken.
#[derive(Drop)]
pub struct PlanLine {
    /// The set, by its place among the declared sets.
    pub set: u32,
    /// The fact for each field of a key.
    pub selectors: Selectors,
}

impl Duplicate for PlanLine {
    fn copy(&self, alloc: Global) -> Result<Self, Memory> {
        Ok(PlanLine {
            set: self.set,
            selectors: self.selectors.copy(alloc)?,
        })
    }
}

/// The lines of a plan.
pub type Plan = Listed<PlanLine>;

fn ipv4_selector(text: &[u8]) -> Option<Selector>
    ensures { result ≡ selectors.ipv4_selector text.now }
{
    if text == b"ip_saddr".as_slice() {
        Some(Selector::IpSource)
    } else if text == b"ip_daddr".as_slice() {
        Some(Selector::IpDest)
    } else {
        None
    }
}

fn ipv6_selector(text: &[u8]) -> Option<Selector>
    ensures { result ≡ selectors.ipv6_selector text.now }
{
    if text == b"ip6_saddr".as_slice() {
        Some(Selector::Ip6Source)
    } else if text == b"ip6_daddr".as_slice() {
        Some(Selector::Ip6Dest)
    } else {
        None
    }
}

fn ether_selector(text: &[u8]) -> Option<Selector>
    ensures { result ≡ selectors.ether_selector text.now }
{
    if text == b"ether_saddr".as_slice() {
        Some(Selector::EtherSource)
    } else if text == b"ether_daddr".as_slice() {
        Some(Selector::EtherDest)
    } else {
        None
    }
}

fn proto_selector(text: &[u8]) -> Option<Selector>
    ensures { result ≡ selectors.proto_selector text.now }
{
    if text == b"proto".as_slice() {
        Some(Selector::Proto)
    } else {
        None
    }
}

fn port_selector(text: &[u8]) -> Option<Selector>
    ensures { result ≡ selectors.port_selector text.now }
{
    if text == b"sport".as_slice() {
        Some(Selector::SourcePort)
    } else if text == b"dport".as_slice() {
        Some(Selector::DestPort)
    } else {
        None
    }
}

/// The selector that a word names, if it is of this kind.
pub fn read_selector(kind: Kind, text: &[u8]) -> Option<Selector>
    ensures { result ≡ selectors.selector_of kind text.now }
{
    match kind {
        Kind::Ipv4 => ipv4_selector(text),
        Kind::Ipv6 => ipv6_selector(text),
        Kind::Ether => ether_selector(text),
        Kind::Proto => proto_selector(text),
        Kind::Service => port_selector(text),
        Kind::Mark => None,
    }
}

/// The ports of what a packet carries, if there is a protocol that has them.
fn ports_in(transport: Option<Transport>) -> Option<(u32, u32)>
    ensures { result ≡ values.ports_in transport }
{
    match transport {
        Some(transport) => transport.ports,
        None => None,
    }
}

fn proto_of(transport: Option<Transport>) -> u32
    ensures { result ≡ values.proto_of transport }
{
    match transport {
        Some(transport) => transport.proto,
        None => 0,
    }
}

fn source_port(transport: Option<Transport>) -> u32
    ensures { result ≡ values.first_of (values.ports_in transport) }
{
    match ports_in(transport) {
        Some(ports) => ports.0,
        None => 0,
    }
}

fn dest_port(transport: Option<Transport>) -> u32
    ensures { result ≡ values.second_of (values.ports_in transport) }
{
    match ports_in(transport) {
        Some(ports) => ports.1,
        None => 0,
    }
}

impl Selector {
    /// Whether the facts have what it selects.
    pub fn is_in(self, facts: &Facts) -> bool
        ensures { result ≡ selectors.is_in facts.now self }
    {
        match self {
            Selector::IpSource | Selector::IpDest => !facts.six,
            Selector::Ip6Source | Selector::Ip6Dest => facts.six,
            Selector::EtherSource | Selector::EtherDest => facts.ether.is_some(),
            Selector::Proto => facts.transport.is_some(),
            Selector::SourcePort | Selector::DestPort => ports_in(facts.transport).is_some(),
        }
    }

    /// What it selects of facts that have it.
    pub fn value(self, facts: &Facts) -> u128
        ensures { result ≡ selectors.selected_value facts.now self }
    {
        match self {
            Selector::IpSource | Selector::Ip6Source => facts.source,
            Selector::IpDest | Selector::Ip6Dest => facts.dest,
            Selector::EtherSource => match facts.ether {
                Some(addresses) => addresses.0,
                None => 0,
            },
            Selector::EtherDest => match facts.ether {
                Some(addresses) => addresses.1,
                None => 0,
            },
            Selector::Proto => u128::from(proto_of(facts.transport)),
            Selector::SourcePort => u128::from(source_port(facts.transport)),
            Selector::DestPort => u128::from(dest_port(facts.transport)),
        }
    }
}
