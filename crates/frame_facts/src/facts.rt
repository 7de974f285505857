/// What an IP packet carries.
#[derive(Clone, Copy, Debug, PartialEq, Eq)]
pub struct Transport {
    /// The number of its protocol, such as 6 for TCP or 1 for ICMP. In IPv6 it follows the extension
    /// headers.
    pub proto: u32,
    /// Its source and its destination port. `None` if the protocol has no ports, if this is a later
    /// fragment, or if the ports weren't kept.
    pub ports: Option<(u32, u32)>,
}

/// What is known of an IP packet.
#[derive(Clone, Copy, Debug, PartialEq, Eq)]
pub struct Facts {
    /// The source and the destination address of its Ethernet frame; `None` if it wasn't in one.
    pub ether: Option<(u128, u128)>,
    /// Whether its addresses are of IPv6; else they are of IPv4.
    pub six: bool,
    /// Its source address.
    pub source: u128,
    /// Its destination address.
    pub dest: u128,
    /// What it carries; `None` if an extension header of IPv6 wasn't kept, or is in an earlier fragment.
    pub transport: Option<Transport>,
}
