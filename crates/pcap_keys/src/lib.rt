//! Takes packets from a capture in pcap or pcapng, and their keys by a plan.
//!
//! A plan names a set and, for each of its fields, a fact of a packet. Say that it has the one line `ip
//! t p ip_saddr . dport`:
//!
//!     record   time (s)     facts                                          packet of `ip t p`
//!     0        10.000350    TCP, 192.168.1.5 40000 to 192.0.2.10 2048      192.168.1.5 . 2048, moment 0
//!     1        10.120000    none: ARP                                      none
//!     2        11.500000    UDP, 2001:db8::5 53 to 2001:db8::80 53         none: no `ip_saddr`
//!     3        11.700000    ICMP, 192.168.1.5 to 192.0.2.10                none: no `dport`
//!     4        12.000999    TCP, 10.0.0.5 40001 to 192.0.2.10 1024         10.0.0.5 . 1024, moment 2000
//!
//! The crate `frame_facts` finds the facts of a frame. A record's moment counts milliseconds from the
//! first record's time. A record makes one packet for each line of the plan whose selectors are all among
//! its facts.
//!
//! A file in pcapng is a list of blocks, which say what the packets after them mean:
//!
//!     byte   block                                              known after it
//!     0      section header, least significant byte first       no interfaces
//!     28     interface, link type 101, `if_tsresol` 3           interface 0: raw IP, 1000 units a second
//!     56     enhanced packet, interface 0, time 100             a packet at moment 0
//!     112    enhanced packet, interface 0, time 150             a packet at moment 50
//!     168    section header                                     no interfaces, two packets
//!     196    enhanced packet, interface 0                       refused at byte 204: `interface`
//!
//! [`read_capture`] reads the records. If the bytes aren't a capture, it returns the byte and the
//! reason of the first fault. [`read_plan`] reads a plan. [`keys_of`] makes the packets that are looked
//! up, as a key file has them.
//!
//! **Definitions:** `specs/Savefile.antt` and `Captured.antt` for a capture's frames or its first
//! fault; `Blocks.antt`, `Clocks.antt` and `Sections.antt` for pcapng; `Plans.antt`, `PlansText.antt` and
//! `Selectors.antt` for plans; `Planned.antt` and `CapturedPackets.antt` for the packets. **Theory:**
//! docs/formats.md, "Captures (`pcap_keys`, `frame_facts`)" and "Plans (`pcap_keys`)". **Proofs:**
//! docs/proofs.md, "Grammars (`token_forms`)".
#![tactic(auto)]

mod block;
mod capture;
mod clock;
mod error;
mod facts;
mod fault;
mod format;
mod interface;
mod keys;
mod place;
mod plan;
mod reading;
mod selector;

pub use capture::read_capture;
pub use error::{CaptureError, CaptureReason};
pub use facts::{Frame, Frames};
pub use frame_facts::{Facts, Transport};
pub use keys::{keys_of, one_capture_law};
pub use plan::{
    PlanError, bad_token, one_plan_fault_law, one_plan_law, plan_fronts_law, read_plan,
};
pub use selector::{Plan, PlanLine, Selector, Selectors};
pub use token_forms::{BadToken, Reason};
