//! Worked examples of `capture` and `judge`.
use crate::calls::{File, check, front};
use std::test::Fail;

const SETS: &[u8] =
    b"table ip filter {\n\tset s {\n\t\ttype ipv4_addr . inet_service\n\t\tflags interval\n\t\telements = { 10.0.0.5 . 1024, 192.168.1.0-192.168.2.1 . 2048 }\n\t}\n}\n";

/// A capture of one UDP packet over raw IP, from 192.168.1.5, port 1234, to 10.0.0.5, port 2048.
pub const UDP: [u8; 68] = [
    0xd4, 0xc3, 0xb2, 0xa1, 0x02, 0x00, 0x04, 0x00, 0x00, 0x00, 0x00, 0x00, 0x00, 0x00, 0x00, 0x00,
    0x00, 0x00, 0x04, 0x00, 0x65, 0x00, 0x00, 0x00, 0x01, 0x00, 0x00, 0x00, 0x20, 0xa1, 0x07, 0x00,
    0x1c, 0x00, 0x00, 0x00, 0x1c, 0x00, 0x00, 0x00, 0x45, 0x00, 0x00, 0x1c, 0x00, 0x00, 0x00, 0x00,
    0x40, 0x11, 0x00, 0x00, 0xc0, 0xa8, 0x01, 0x05, 0x0a, 0x00, 0x00, 0x05, 0x04, 0xd2, 0x08, 0x00,
    0x00, 0x08, 0x00, 0x00,
];

const PLAN: &[u8] = b"ip filter s ip_saddr . dport\n";

#[test]
fn captures(rt: HostRuntime) -> Result<(), Fail> {
    let calls: [(&[u8], usize, &[u8], u8); 4] = [
        (
            PLAN,
            68,
            b"commit generation 1 purged 0\npacket 0 thread 0 generation 1 element 1\n",
            0,
        ),
        (PLAN, 67, b"pipapo: capture byte 24: cut\n", 10),
        (PLAN, 24, b"commit generation 1 purged 0\n", 0),
        (
            b"ip filter s dport . ip_saddr\n",
            67,
            b"pipapo: plan line 1: type\n",
            11,
        ),
    ];
    for (plan, end, output, status) in calls {
        let files: [File<'_>; 3] = [("a.nft", SETS), ("plan", plan), ("pcap", front(&UDP, end))];
        let words = ["capture", "a.nft", "plan", "pcap"];
        check(&rt, rt.alloc(), &words, &files, output, status)?;
    }
    Ok(())
}

const SERVICES: &[u8] =
    b"add set ip t ok { type inet_service ; flags interval ; elements = { 1-1000 } }\nadd set ip t bad { type inet_service ; elements = { 23 } }\n";

const KEYS: &[u8] = b"ip t ok 23\nip t ok 80\nip t ok 2000\n";

#[test]
fn rules(rt: HostRuntime) -> Result<(), Fail> {
    let calls: [(&[u8], &[u8], u8); 2] = [
        (
            b"chain block { in ip t bad drop }\nchain main { jump block ; in ip t ok accept }\npolicy drop\n",
            b"commit generation 1 purged 0\npacket 0 thread 0 generation 1 rule 0 drop\npacket 1 thread 0 generation 1 rule 2 accept\npacket 2 thread 0 generation 1 policy drop\n",
            0,
        ),
        (
            b"chain main { jump main }\npolicy drop\n",
            b"pipapo: rules line 1: statement\n",
            9,
        ),
    ];
    for (rules, output, status) in calls {
        let files: [File<'_>; 3] = [("a.nft", SERVICES), ("rules", rules), ("keys", KEYS)];
        let words = ["judge", "a.nft", "rules", "keys"];
        check(&rt, rt.alloc(), &words, &files, output, status)?;
    }
    Ok(())
}

#[test]
fn captures_by_rules(rt: HostRuntime) -> Result<(), Fail> {
    let calls: [(&[u8], &[u8], usize, &[u8], u8); 5] = [
        (
            b"chain main { in ip filter s drop }\npolicy accept\n",
            PLAN,
            68,
            b"commit generation 1 purged 0\npacket 0 thread 0 generation 1 rule 0 drop\n",
            0,
        ),
        (
            b"chain main { out ip filter s drop }\npolicy accept\n",
            PLAN,
            68,
            b"commit generation 1 purged 0\npacket 0 thread 0 generation 1 policy accept\n",
            0,
        ),
        (b"policy\n", b"", 0, b"pipapo: rules line 1: statement\n", 9),
        (
            b"chain main { }\npolicy drop\n",
            b"ip filter s dport . ip_saddr\n",
            67,
            b"pipapo: plan line 1: type\n",
            11,
        ),
        (
            b"chain main { }\npolicy drop\n",
            PLAN,
            67,
            b"pipapo: capture byte 24: cut\n",
            10,
        ),
    ];
    for (rules, plan, end, output, status) in calls {
        let files: [File<'_>; 4] = [
            ("a.nft", SETS),
            ("rules", rules),
            ("plan", plan),
            ("pcap", front(&UDP, end)),
        ];
        let words = ["judge", "a.nft", "rules", "plan", "pcap"];
        check(&rt, rt.alloc(), &words, &files, output, status)?;
    }
    Ok(())
}
