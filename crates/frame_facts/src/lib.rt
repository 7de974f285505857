//! Finds the facts of a frame: the addresses, the protocol and the ports of its IP packet.
//!
//! A frame is a list of bytes, and its link type says what it begins with. Headers follow each other.
//! Each says what the next one is, so a frame is read from left to right:
//!
//!     link type 1 (Ethernet)         IPv4, protocol 6 (TCP)                ports
//!     02:00:00:00:00:02              192.168.1.5 to 192.0.2.10             40000
//!     02:00:00:00:00:01 type 0x0800  20 bytes of header                    2048
//!
//! What is known grows with what was kept. These are the facts of four more frames:
//!
//!     link type   frame                                           addresses   protocol   ports
//!     101         IPv4, ICMP                                      yes         1          none: ICMP has none
//!     113         IPv4, UDP, a later fragment                     yes         17         none: the first fragment has them
//!     276         IPv6, hop-by-hop options, TCP                   yes         6          yes
//!     229         IPv6, destination options, cut after 4 bytes    yes         unknown    none
//!     1           ARP                                             no facts
//!
//! [`facts_of`] returns the facts. [`link_of`] returns what libpcap's number of a link type means.
//!
//! **Definitions:** `specs/Links.antt` for Ethernet, its tags and cooked headers; `Ip.antt` for IPv4 and
//! IPv6; `Transports.antt` for ports and extension headers; `Wire.antt` for numbers; `Values.antt` for how
//! large facts are. **Theory:** docs/formats.md, "Captures".
#![tactic(auto)]

mod cooked;
mod ethernet;
mod facts;
mod frame;
mod ip;
mod link;
mod tagged;
mod transport;
mod wire;

pub use facts::{Facts, Transport};
pub use frame::facts_of;
pub use link::{Link, link_of};
