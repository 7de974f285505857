//! Captures: their frames, the bytes at which they are refused, their plans, and the packets that a plan makes of them.
ghost use Rattle.std.specs.Prelude.{◌≤◌, length, IfOk};
ghost use Rattle.set_script.specs.Limits.{most_sets};

use crate::bytes::bytes_of;
use crate::cases::{assert_told, cut, line_of, reason_word, told_place, told_refusal};
use crate::packets::append_packets;
use crate::sets::schema_of;
use pcap_keys::{
    CaptureError, CaptureReason, Facts, Frame, Frames, Plan, PlanError, Transport, bad_token,
    keys_of, read_capture, read_plan,
};
use set_model::{Duplicate, Memory};
use std::alloc::Global;
use text_pieces::{Piece, append_pieces};

fn word_of(reason: CaptureReason) -> &'static [u8] {
    match reason {
        CaptureReason::Magic => b"magic",
        CaptureReason::Cut => b"cut",
        CaptureReason::Version => b"version",
        CaptureReason::LinkType => b"link type",
        CaptureReason::Length => b"length",
        CaptureReason::Interface => b"interface",
        CaptureReason::Options => b"options",
    }
}

fn append_ports(ports: Option<(u32, u32)>, told: &mut Vec<u8>) -> Result<(), Memory> {
    match ports {
        None => Ok(()),
        Some((source, dest)) => append_pieces(
            &[
                Piece::Word(b" "),
                Piece::Number(u64::from(source)),
                Piece::Word(b" "),
                Piece::Number(u64::from(dest)),
            ],
            told,
        ),
    }
}

/// Appends the protocol and the ports of a packet, as far as they are known.
fn append_transport(transport: Option<Transport>, told: &mut Vec<u8>) -> Result<(), Memory> {
    match transport {
        None => Ok(()),
        Some(transport) => {
            append_pieces(
                &[Piece::Word(b" "), Piece::Number(u64::from(transport.proto))],
                told,
            )?;
            append_ports(transport.ports, told)
        }
    }
}

/// Appends the version, the addresses, the protocol and the ports of a packet.
fn append_packet(facts: &Facts, told: &mut Vec<u8>) -> Result<(), Memory> {
    append_pieces(
        &[
            Piece::Word(if facts.six { b"6 " } else { b"4 " }),
            Piece::Sum(facts.source),
            Piece::Word(b" "),
            Piece::Sum(facts.dest),
        ],
        told,
    )?;
    append_transport(facts.transport, told)
}

/// Appends the stations of a frame.
fn append_stations(stations: Option<(u128, u128)>, told: &mut Vec<u8>) -> Result<(), Memory> {
    match stations {
        None => Ok(()),
        Some((source, dest)) => append_pieces(
            &[
                Piece::Word(b"ether "),
                Piece::Sum(source),
                Piece::Word(b" "),
                Piece::Sum(dest),
                Piece::Word(b" "),
            ],
            told,
        ),
    }
}

fn append_facts(facts: &Facts, told: &mut Vec<u8>) -> Result<(), Memory> {
    append_stations(facts.ether, told)?;
    append_packet(facts, told)
}

/// Appends the moment of a frame and what it has.
fn append_frame(frame: &Frame, told: &mut Vec<u8>) -> Result<(), Memory> {
    append_pieces(&[Piece::Number(frame.moment), Piece::Word(b" ")], told)?;
    match &frame.facts {
        Some(facts) => append_facts(facts, told)?,
        None => append_pieces(&[Piece::Word(b"none")], told)?,
    }
    append_pieces(&[Piece::Word(b";")], told)
}

fn told_frames(alloc: Global, frames: &Frames) -> Result<Vec<u8>, Memory> {
    let mut told = Vec::new(alloc);
    for frame in frames.as_slice() {
        append_frame(frame, &mut told)?;
    }
    Ok(told)
}

/// The frames of a capture in words, or the byte and the reason for which it is refused.
fn told_capture(alloc: Global, words: &[u8]) -> Result<Vec<u8>, Memory> {
    match read_capture(alloc, &bytes_of(alloc, words)?) {
        Ok(frames) => told_frames(alloc, &frames),
        Err(CaptureError::Bad { byte, reason }) => told_refusal(alloc, byte, word_of(reason)),
        Err(CaptureError::Memory) => Err(Memory),
    }
}

/// The set `ip filter s` of an address and a port, and the set `ip filter macs`.
const SETS: &[u8] = b"\
    add set filter s { type ipv4_addr . inet_service ; flags interval ; }\n\
    add set filter macs { type ether_addr . inet_proto . ipv6_addr ; }";

/// The line and the reason for which a plan is refused.
fn plan_refusal(alloc: Global, text: &[u8]) -> Result<Vec<u8>, Memory> {
    match read_plan(alloc, &schema_of(alloc, SETS)?, text) {
        Ok(_) => line_of(alloc, &[Piece::Word(b"read")]),
        Err(PlanError::Bad { line, reason }) => told_refusal(alloc, line, reason_word(reason)),
        Err(PlanError::Memory) => Err(Memory),
    }
}

/// The place of a plan's bad token.
fn place(alloc: Global, text: &[u8]) -> Result<Vec<u8>, Memory> {
    let schema = schema_of(alloc, SETS)?;
    told_place(alloc, bad_token(alloc, &schema, text)?)
}

fn packets_of(alloc: Global, plan: &Plan, frames: &Frames) -> Result<Vec<u8>, Memory> {
    let packets = keys_of(alloc, plan, frames)?;
    let mut told = Vec::new(alloc);
    append_packets(&packets, &mut told)?;
    Ok(told)
}

/// The packets that a copy of a plan makes of a copy of frames.
fn packets_of_copies(alloc: Global, plan: &Plan, frames: &Frames) -> Result<Vec<u8>, Memory> {
    packets_of(alloc, &plan.copy(alloc)?, &frames.copy(alloc)?)
}

/// The packets that a plan makes of a capture in words.
fn planned(alloc: Global, plan: &Plan, words: &[u8]) -> Result<Vec<u8>, Memory> {
    match read_capture(alloc, &bytes_of(alloc, words)?) {
        Ok(frames) => packets_of_copies(alloc, plan, &frames),
        Err(_) => Err(Memory),
    }
}

/// The packets that a plan makes of the capture in words after its `=`.
fn told_packets(alloc: Global, case: &[u8]) -> Result<Vec<u8>, Memory> {
    let (plan, words) = cut(case, b'=');
    match read_plan(alloc, &schema_of(alloc, SETS)?, plan) {
        Ok(plan) => planned(alloc, &plan, words),
        Err(_) => Err(Memory),
    }
}

// the third begins as a gzip file; link type 105 is 802.11
/// Captures that are refused, by the byte and the reason.
const FAULTS: &[u8] = b"\
    |0 magic~\
    d4c3b2|0 magic~\
    1f8b0800 00000000|0 magic~\
    d4c3b2a1|0 cut~\
    d4c3b2a1 02000400 zero zero 00000400 650000|0 cut~\
    d4c3b2a1 02000300 zero zero 00000400 65000000|4 version~\
    a1b2c3d4 02000400 zero zero 00000400 00000065|4 version~\
    d4c3b2a1 02000400 zero zero 00000400 69000000|20 link type~\
    raw 01|24 cut~\
    raw zero zero zero zero record ipv4 addresses|40 cut~\
    raw record ipv4 addresses ports 000800|24 cut~\
";

// the second has more in the high bits of its link type; the last is in nanoseconds, the most significant byte first,
// at 10.999999, 12.001, 9 and 4294967295 seconds
/// Moments count from the first record.
const CAPTURES: &[u8] = b"\
    raw|~\
    d4c3b2a1 02000400 zero zero 00000400 65000710|~\
    raw record ipv4 addresses ports udp|0 4 3232235781 167772165 17 1234 2048;~\
    a1b23c4d 00020004 zero zero 00040000 00000001 0000000a 3b9ac618 zero zero 0000000c 000f4240 zero zero 00000009 zero zero zero ffffffff zero zero zero|0 none;1002 none;0 none;4294967284001 none;~\
";

// ports that end too early, options, no place for them, a header of 16 bytes, fragments, ICMP, addresses that end too early,
// DCCP, SCTP, UDP-Lite, ESP, AH, and version 5
/// Frames of IPv4.
const IPV4_FRAMES: &[u8] = b"\
    raw zero zero 18000000 zero ipv4 addresses ports|0 4 3232235781 167772165 17 1234 2048;~\
    raw zero zero 17000000 zero ipv4 addresses 04d208|0 4 3232235781 167772165 17;~\
    raw zero zero zero zero|0 none;~\
    raw zero zero 1c000000 zero 4600002000000000 40110000 addresses 01010100 ports|0 4 3232235781 167772165 17 1234 2048;~\
    raw zero zero 18000000 zero 4600002000000000 40110000 addresses ports|0 4 3232235781 167772165 17;~\
    raw zero zero 18000000 zero 4400001c00000000 40110000 addresses ports|0 none;~\
    raw zero zero 18000000 zero 4500001c00002000 40110000 addresses ports|0 4 3232235781 167772165 17 1234 2048;~\
    raw zero zero 18000000 zero 4500001c00004000 40110000 addresses ports|0 4 3232235781 167772165 17 1234 2048;~\
    raw zero zero 18000000 zero 4500001c00000001 40110000 addresses ports|0 4 3232235781 167772165 17;~\
    raw zero zero 18000000 zero 4500001c00003f00 40110000 addresses ports|0 4 3232235781 167772165 17;~\
    raw zero zero 18000000 zero 4500001c00000000 40010000 addresses ports|0 4 3232235781 167772165 1;~\
    raw zero zero 13000000 zero ipv4 c0a801050a0000|0 none;~\
    raw zero zero 18000000 zero 4500001c00000000 40210000 addresses ports|0 4 3232235781 167772165 33 1234 2048;~\
    raw zero zero 18000000 zero 4500001c00000000 40840000 addresses ports|0 4 3232235781 167772165 132 1234 2048;~\
    raw zero zero 18000000 zero 4500001c00000000 40880000 addresses ports|0 4 3232235781 167772165 136 1234 2048;~\
    raw zero zero 18000000 zero 4500001c00000000 40320000 addresses ports|0 4 3232235781 167772165 50;~\
    raw zero zero 18000000 zero 4500001c00000000 40330000 addresses ports|0 4 3232235781 167772165 51;~\
    raw zero zero 18000000 zero 5500001c00000000 40110000 addresses ports|0 none;~\
";

// after ports that end too early: hop-by-hop options; a first fragment; a later one, and one whose next header is an
// extension header; a routing header of 16 bytes; an authentication header of 24; hop-by-hop and destination options;
// options that end too early; no next header; and a header that ends too early
/// Frames of IPv6.
const IPV6_FRAMES: &[u8] = b"\
    raw zero zero 2c000000 zero ipv6 addresses6 ports|0 6 42540766411282592856903984951653826561 42540766411282592856903984951653826562 6 1234 2048;~\
    raw zero zero 2b000000 zero ipv6 addresses6 04d208|0 6 42540766411282592856903984951653826561 42540766411282592856903984951653826562 6;~\
    raw zero zero 34000000 zero 60000000001c0040 addresses6 0600000000000000 ports|0 6 42540766411282592856903984951653826561 42540766411282592856903984951653826562 6 1234 2048;~\
    raw zero zero 34000000 zero 60000000001c2c40 addresses6 1100000100000001 ports|0 6 42540766411282592856903984951653826561 42540766411282592856903984951653826562 17 1234 2048;~\
    raw zero zero 34000000 zero 60000000001c2c40 addresses6 1100000800000001 ports|0 6 42540766411282592856903984951653826561 42540766411282592856903984951653826562 17;~\
    raw zero zero 34000000 zero 60000000001c2c40 addresses6 3c00000800000001 ports|0 6 42540766411282592856903984951653826561 42540766411282592856903984951653826562;~\
    raw zero zero 3c000000 zero 6000000000242b40 addresses6 06010000 zero zero zero ports|0 6 42540766411282592856903984951653826561 42540766411282592856903984951653826562 6 1234 2048;~\
    raw zero zero 44000000 zero 60000000002c3340 addresses6 11040000 zero zero zero zero zero ports|0 6 42540766411282592856903984951653826561 42540766411282592856903984951653826562 17 1234 2048;~\
    raw zero zero 3c000000 zero 6000000000240040 addresses6 3c00000000000000 8400000000000000 ports|0 6 42540766411282592856903984951653826561 42540766411282592856903984951653826562 132 1234 2048;~\
    raw zero zero 2f000000 zero 60000000001c3c40 addresses6 06000000000000|0 6 42540766411282592856903984951653826561 42540766411282592856903984951653826562;~\
    raw zero zero 2c000000 zero 6000000000043b40 addresses6 ports|0 6 42540766411282592856903984951653826561 42540766411282592856903984951653826562 59;~\
    raw zero zero 27000000 zero ipv6 20010db800000000000000000000000120010db80000000000000000000000|0 none;~\
";

// cooked headers of version 1: IPv4; a tag; netlink; and one that ends too early. Then version 2, the four numbers of raw
// IP, raw IPv6 as raw IPv4, and raw IPv6
/// Frames of other link types.
const LINKED_FRAMES: &[u8] = b"\
    linked 71000000 zero zero 28000000 zero 0000000100060200000000010000 0800 ipv4 addresses ports|0 4 3232235781 167772165 17 1234 2048;~\
    linked 71000000 zero zero 2c000000 zero 0000000100060200000000010000 customer 0800 ipv4 addresses ports|0 4 3232235781 167772165 17 1234 2048;~\
    linked 71000000 zero zero 28000000 zero 0000033800060200000000010000 0800 ipv4 addresses ports|0 none;~\
    linked 71000000 zero zero 0f000000 zero 0000000100060200000000010000 08|0 none;~\
    linked 14010000 zero zero 2c000000 zero 0800 0000 00000002 0001 0006 0200000000010000 ipv4 addresses ports|0 4 3232235781 167772165 17 1234 2048;~\
    linked 0c000000 zero zero 18000000 zero ipv4 addresses ports|0 4 3232235781 167772165 17 1234 2048;~\
    linked 0e000000 zero zero 18000000 zero ipv4 addresses ports|0 4 3232235781 167772165 17 1234 2048;~\
    linked e4000000 zero zero 18000000 zero ipv4 addresses ports|0 4 3232235781 167772165 17 1234 2048;~\
    linked e4000000 zero zero 2c000000 zero ipv6 addresses6 ports|0 none;~\
    linked e5000000 zero zero 2c000000 zero ipv6 addresses6 ports|0 6 42540766411282592856903984951653826561 42540766411282592856903984951653826562 6 1234 2048;~\
";

// up to two tags; another version than the type's, ARP, and no type
/// Frames of Ethernet.
const ETHERNET_FRAMES: &[u8] = b"\
    ethernet zero zero 26000000 zero stations 0800 ipv4 addresses ports|0 ether 2199023255553 4329179916 4 3232235781 167772165 17 1234 2048;~\
    ethernet zero zero 2a000000 zero stations customer 0800 ipv4 addresses ports|0 ether 2199023255553 4329179916 4 3232235781 167772165 17 1234 2048;~\
    ethernet zero zero 2e000000 zero stations service customer 0800 ipv4 addresses ports|0 ether 2199023255553 4329179916 4 3232235781 167772165 17 1234 2048;~\
    ethernet zero zero 32000000 zero stations service customer customer 0800 ipv4 addresses ports|0 none;~\
    ethernet zero zero 26000000 zero stations 86dd ipv4 addresses ports|0 none;~\
    ethernet zero zero 26000000 zero stations 0806 ipv4 addresses ports|0 none;~\
    ethernet zero zero 0d000000 zero stations 08|0 none;~\
    ethernet zero zero 10000000 zero stations customer|0 none;~\
";

// no packet; times in microseconds, and their high half; simple packets without an interface's limit, and with limits of 24
// and 20 bytes; times in milliseconds, also by the
// first of two options, in 1024ths and in nanoseconds; an interface whose clock starts a second early; a
// comment, and the end of options; two sections; blocks that are skipped; and version 1.2
/// Files of pcapng.
const SECTIONS: &[u8] = b"\
    section|~\
    section interface|~\
    section interface 06000000 3c000000 zero zero e8030000 1c000000 1c000000 ipv4 addresses ports udp 3c000000 06000000 3c000000 zero zero 80841e00 1c000000 1c000000 ipv4 addresses ports udp 3c000000|0 4 3232235781 167772165 17 1234 2048;1999 4 3232235781 167772165 17 1234 2048;~\
    section interface 06000000 3c000000 zero zero zero 1c000000 1c000000 ipv4 addresses ports udp 3c000000 06000000 3c000000 zero 01000000 zero 1c000000 1c000000 ipv4 addresses ports udp 3c000000|0 4 3232235781 167772165 17 1234 2048;4294967 4 3232235781 167772165 17 1234 2048;~\
    section interface 03000000 2c000000 1c000000 ipv4 addresses ports udp 2c000000 06000000 3c000000 zero zero zero 1c000000 1c000000 ipv4 addresses ports udp 3c000000 06000000 3c000000 zero zero 80841e00 1c000000 1c000000 ipv4 addresses ports udp 3c000000 03000000 2c000000 1c000000 ipv4 addresses ports udp 2c000000|0 4 3232235781 167772165 17 1234 2048;0 4 3232235781 167772165 17 1234 2048;2000 4 3232235781 167772165 17 1234 2048;2000 4 3232235781 167772165 17 1234 2048;~\
    section 01000000 14000000 65000000 18000000 14000000 03000000 28000000 1c000000 ipv4 addresses ports 28000000|0 4 3232235781 167772165 17 1234 2048;~\
    section 01000000 14000000 65000000 14000000 14000000 03000000 24000000 1c000000 ipv4 addresses 24000000|0 4 3232235781 167772165 17;~\
    section 01000000 20000000 65000000 zero 09000100 03000000 00000000 20000000 06000000 3c000000 zero zero 05000000 1c000000 1c000000 ipv4 addresses ports udp 3c000000 06000000 3c000000 zero zero ed030000 1c000000 1c000000 ipv4 addresses ports udp 3c000000|0 4 3232235781 167772165 17 1234 2048;1000 4 3232235781 167772165 17 1234 2048;~\
    section 01000000 24000000 65000000 zero 09000100 03000000 09000100 06000000 24000000 06000000 3c000000 zero zero zero 1c000000 1c000000 ipv4 addresses ports udp 3c000000 06000000 3c000000 zero zero e8030000 1c000000 1c000000 ipv4 addresses ports udp 3c000000|0 4 3232235781 167772165 17 1234 2048;1000 4 3232235781 167772165 17 1234 2048;~\
    section 01000000 1c000000 65000000 zero 09000100 8a000000 1c000000 06000000 3c000000 zero zero zero 1c000000 1c000000 ipv4 addresses ports udp 3c000000 06000000 3c000000 zero zero 01000000 1c000000 1c000000 ipv4 addresses ports udp 3c000000 06000000 3c000000 zero zero 00020000 1c000000 1c000000 ipv4 addresses ports udp 3c000000|0 4 3232235781 167772165 17 1234 2048;0 4 3232235781 167772165 17 1234 2048;500 4 3232235781 167772165 17 1234 2048;~\
    section 01000000 1c000000 65000000 zero 09000100 09000000 1c000000 06000000 3c000000 zero zero zero 1c000000 1c000000 ipv4 addresses ports udp 3c000000 06000000 3c000000 zero zero 40420f00 1c000000 1c000000 ipv4 addresses ports udp 3c000000|0 4 3232235781 167772165 17 1234 2048;1 4 3232235781 167772165 17 1234 2048;~\
    section interface 01000000 20000000 65000000 zero 0e000800 ffffffffffffffff 20000000 06000000 3c000000 zero zero zero 1c000000 1c000000 ipv4 addresses ports udp 3c000000 06000000 3c000000 01000000 zero c0c62d00 1c000000 1c000000 ipv4 addresses ports udp 3c000000 06000000 3c000000 01000000 zero zero 1c000000 1c000000 ipv4 addresses ports udp 3c000000|0 4 3232235781 167772165 17 1234 2048;2000 4 3232235781 167772165 17 1234 2048;0 4 3232235781 167772165 17 1234 2048;~\
    section interface 01000000 20000000 65000000 zero 0e000800 ffffffffffffffff 20000000 06000000 3c000000 01000000 zero zero 1c000000 1c000000 ipv4 addresses ports udp 3c000000 06000000 3c000000 zero zero zero 1c000000 1c000000 ipv4 addresses ports udp 3c000000|0 4 3232235781 167772165 17 1234 2048;1000 4 3232235781 167772165 17 1234 2048;~\
    section 01000000 28000000 65000000 zero 01000300 61626300 00000000 09000100 03000000 28000000 06000000 3c000000 zero zero zero 1c000000 1c000000 ipv4 addresses ports udp 3c000000 06000000 3c000000 zero zero 80841e00 1c000000 1c000000 ipv4 addresses ports udp 3c000000|0 4 3232235781 167772165 17 1234 2048;2000 4 3232235781 167772165 17 1234 2048;~\
    section interface 06000000 3c000000 zero zero zero 1c000000 1c000000 ipv4 addresses ports udp 3c000000 bigsection 00000001 00000014 00010000 00000400 00000014 00000006 00000048 00000000 00000000 000f4240 00000026 00000026 stations 0800 ipv4 addresses ports 0000 00000048|0 4 3232235781 167772165 17 1234 2048;1000 ether 2199023255553 4329179916 4 3232235781 167772165 17 1234 2048;~\
    section interface 05000000 18000000 zero zero zero 18000000 06000000 3c000000 zero zero zero 1c000000 1c000000 ipv4 addresses ports udp 3c000000 0a0b0c0d 0c000000 0c000000|0 4 3232235781 167772165 17 1234 2048;~\
    0a0d0d0a 1c000000 4d3c2b1a 01000200 ffffffffffffffff 1c000000 interface|~\
";

// among them a block of 13 bytes, a packet of another section's interface, times of 10^-20 and 2^-64 seconds, and options
// with values of other lengths
/// Files of pcapng that are refused, by the byte and the reason.
const SECTION_FAULTS: &[u8] = b"\
    0a0d0d0a|0 cut~\
    0a0d0d0a 1c000000 4d3c2b1a 01000000 ffffffff ffffffff|0 cut~\
    0a0d0d0a 1c000000 4d3c2b1b 01000000 ffffffffffffffff 1c000000|8 magic~\
    0a0d0d0a 1c000000 4d3c2b1a 02000000 ffffffffffffffff 1c000000|12 version~\
    0a0d0d0a 1c000000 4d3c2b1a 01000100 ffffffffffffffff 1c000000|12 version~\
    0a0d0d0a 18000000 4d3c2b1a 01000000 ffffffff 18000000|4 length~\
    section 05000000 0c0000|28 cut~\
    section 05000000 0d000000 zero zero|32 length~\
    section 05000000 08000000 08000000|32 length~\
    section 05000000 10000000 zero|28 cut~\
    section 05000000 0c000000 10000000|32 length~\
    section 01000000 14000000 69000000 zero 14000000|36 link type~\
    section 01000000 10000000 65000000 10000000|32 length~\
    section 06000000 3c000000 zero zero zero 1c000000 1c000000 ipv4 addresses ports udp 3c000000|36 interface~\
    section 03000000 2c000000 1c000000 ipv4 addresses ports udp 2c000000|28 interface~\
    section interface 06000000 3c000000 01000000 zero zero 1c000000 1c000000 ipv4 addresses ports udp 3c000000|56 interface~\
    section interface 06000000 3c000000 zero zero zero 1c000000 1c000000 ipv4 addresses ports udp 3c000000 section 06000000 3c000000 zero zero zero 1c000000 1c000000 ipv4 addresses ports udp 3c000000|144 interface~\
    section interface 06000000 3c000000 zero zero zero 1d000000 1d000000 ipv4 addresses ports udp 3c000000|68 length~\
    section interface 03000000 2c000000 1d000000 ipv4 addresses ports udp 2c000000|56 length~\
    section interface 03000000 0c000000 0c000000|52 length~\
    section 01000000 1c000000 65000000 zero 09000200 03030000 1c000000|28 options~\
    section 01000000 1c000000 65000000 zero 09000100 14000000 1c000000|28 options~\
    section 01000000 1c000000 65000000 zero 09000100 c0000000 1c000000|28 options~\
    section 01000000 20000000 65000000 zero 0e000700 ffffffffffffffff 20000000|28 options~\
    section 01000000 1c000000 65000000 zero 01000500 61626364 1c000000|28 options~\
";

/// A selector that a frame lacks makes no packet.
const PACKETS: &[u8] = b"\
    ip filter s ip_saddr . dport=raw record ipv4 addresses ports udp|0 3232235781 2048 at 0;~\
    ip filter s ip_saddr . dport=raw zero zero 18000000 zero 4500001c00000000 40010000 addresses ports|~\
    # addresses\n\nfilter macs ether_daddr . proto . ip6_saddr\nip filter s ip_daddr . sport\n=ethernet zero zero 3a000000 3a000000 stations 86dd ipv6 addresses6 ports|1 4329179916 6 42540766411282592856903984951653826561 at 0;~\
";

/// Plans that are refused, by the line and the reason.
const PLANS: &[u8] = b"\
    |1 end~\
    \n# no line\n|3 end~\
    ip filter s ip_saddr|1 end~\
    ip filter s ip_saddr . dport dport|1 statement~\
    ip filter s ip_saddr dport|1 statement~\
    ip filter s ip_saddr . dport;|1 statement~\
    ip filter s\nip_saddr . dport|1 statement~\
    \nip filter s ip6_saddr . dport|2 type~\
    ip filter s ip_saddr . proto|1 type~\
    ip filter s dport . ip_saddr|1 type~\
    ip filter t ip_saddr . dport|1 set~\
    ip6 filter s ip_saddr . dport|1 set~\
    5|1 statement~\
    filter s counter|1 type~\
    delete set ip_saddr . dport|1 set~\
    filter s ip_saddr . dport *|1 statement~\
    filter s @|1 character~\
    filter s ip_saddr . dport\nfilter s ip_saddr . dport\nfilter s ip_saddr . dport\nfilter s ip_saddr . dport\n\nfilter s ip_saddr . dport\n|6 statement~\
";

/// The place, the length, the line and the column of a bad token.
const PLACES: &[u8] = b"\
    \nfilter s ip_saddr . proto|21 5 2 21 type~\
    filter s ip_saddr|17 0 1 18 end~\
    filter counter|7 7 1 8 set~\
    filter s ip_saddr . dport|none~\
";

#[test]
fn captures(rt: HostRuntime) {
    assert_told(&rt, rt.alloc(), FAULTS, 11, told_capture);
    assert_told(&rt, rt.alloc(), CAPTURES, 4, told_capture);
    assert_told(&rt, rt.alloc(), IPV4_FRAMES, 18, told_capture);
    assert_told(&rt, rt.alloc(), IPV6_FRAMES, 12, told_capture);
    assert_told(&rt, rt.alloc(), LINKED_FRAMES, 10, told_capture);
    assert_told(&rt, rt.alloc(), ETHERNET_FRAMES, 8, told_capture);
}

#[test]
fn sections(rt: HostRuntime) {
    assert_told(&rt, rt.alloc(), SECTIONS, 17, told_capture);
    assert_told(&rt, rt.alloc(), SECTION_FAULTS, 25, told_capture);
}

#[test]
fn plans(rt: HostRuntime) {
    assert_told(&rt, rt.alloc(), PACKETS, 3, told_packets);
    assert_told(&rt, rt.alloc(), PLANS, 18, plan_refusal);
    assert_told(&rt, rt.alloc(), PLACES, 4, place);
}
