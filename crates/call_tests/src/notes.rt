//! What a person reads beside the output.
use crate::calls::{File, NOTHING, RUN, RUN_ON, Wanted, check_failing};
use crate::other_files::UDP;
use std::test::Fail;

const PORTS: &[u8] = b"add set ip t p { type inet_service ; }\n";

const OVERLAP: &[u8] =
    b"table ip t {\n\tset s {\n\t\ttype ipv4_addr\n\t\tflags interval\n\t\telements = { 10.0.1.0/24,\n\t\t\t10.0.1.128/25 }\n\t}\n}\n";

const TAKEN_BACK: &[u8] =
    b"add set ip t p { type inet_service; flags interval; }\nadd element ip t p { 10-20 }\nabort\nadd element ip t p { 12-22 }\nadd element ip t p { 80, 20-30 }\n";

const EIGHTEEN_SECTIONS: &[u8] =
    b"add set ip t p { type inet_service ; }\nround\nround\nround\nround\nround\nround\nround\nround\nround\nround\nround\nround\nround\nround\nround\nround\nround\n";

const ADDRESSES_BESIDE_PAIRS: &[u8] =
    b"add set inet f bad { type ipv4_addr ; }\nadd set inet f web { type ipv4_addr . inet_service ; }\nadd element inet f web { 10.0.0.1 . 80 }\n";

/// A call and its note for a person.
struct Noted {
    words: &'static [&'static str],
    files: &'static [File<'static>],
    notes: &'static [u8],
    output: &'static [u8],
    status: u8,
}

const CALLS: [Noted; 13] = [
    // the place of a bad token
    Noted {
        words: &["list", "a.nft"],
        files: &[(
            "a.nft",
            b"table ip t {\n\tset s {\n\t\ttype ipv4_addr\n\t\tflags interval\n\t\tauto-merge\n\t}\n}\n",
        )],
        notes: b"a.nft:5:3: 'auto-merge' isn't supported\n\t\tauto-merge\n\t\t^^^^^^^^^^\nhelp: remove it: intervals aren't merged, and one that overlaps is refused\n",
        output: b"pipapo: script line 5: left out\n",
        status: 3,
    },
    Noted {
        words: &["run", "keys", "a.nft"],
        files: &[("a.nft", PORTS), ("keys", b"ip t p 80\n")],
        notes: b"keys:1:1: this looks like a key file, and a script is expected here: 'run' and 'judge' take a key file after it\n",
        output: b"pipapo: script line 1: statement\n",
        status: 3,
    },
    Noted {
        words: &RUN,
        files: &[("a.nft", PORTS), ("keys", b"ip t p 80\nip t p x\n")],
        notes: b"keys:2:8: 'x' doesn't fit field 1 (inet_service): it isn't a port\nip t p x\n       ^\nhelp: write a number from 0 to 65535\n",
        output: b"pipapo: keys line 2: value\n",
        status: 4,
    },
    // a missing file, and one of another program
    Noted {
        words: &["dump", "a.nft"],
        files: &[],
        notes: b"a.nft: No such file or directory\n",
        output: b"pipapo: read fault: a.nft\n",
        status: 5,
    },
    Noted {
        words: &["dump", "a.nft"],
        files: &[("a.nft", b"\x1f\x8b\x08\x00")],
        notes: b"a.nft:1:1: this is a file that gzip has packed: unpack it first\n",
        output: b"pipapo: script line 1: character\n",
        status: 3,
    },
    // a refused change and the element in its way, in both modes
    Noted {
        words: &["list", "a.nft"],
        files: &[("a.nft", OVERLAP)],
        notes: b"a.nft:6:4: 10.0.1.128/25 overlaps 10.0.1.0/24 (line 5)\na.nft: the last transaction failed, so this shows the generation before it\n",
        output: b"# line 6 refused overlap ip t s element 0\n# fail generation 0\ntable ip t {\n\tset s {\n\t\ttype ipv4_addr\n\t\tflags interval\n\t}\n}\n",
        status: 1,
    },
    Noted {
        words: &RUN_ON,
        files: &[("a.nft", OVERLAP), ("keys", b"")],
        notes: b"a.nft:6:4: 10.0.1.128/25 overlaps 10.0.1.0/24 (line 5)\n",
        output: b"line 6 refused overlap ip t s element 0\ncommit generation 1 purged 0\n",
        status: 1,
    },
    // the element in the way by its id: the first 10-20 is taken back, and 12-22 of the same id is in the way of one element of line 5
    Noted {
        words: &["run", "a.nft", "keys", "--keep-going"],
        files: &[("a.nft", TAKEN_BACK), ("keys", b"")],
        notes: b"a.nft:5:26: 20-30 overlaps 12-22 (line 4)\n",
        output: b"abort generation 0\nline 5 refused overlap ip t p element 0\ncommit generation 1 purged 0\n",
        status: 1,
    },
    // words that are no key
    Noted {
        words: &["get", "a.nft", "t", "p", "http"],
        files: &[("a.nft", PORTS)],
        notes: b"key:1:5: 'http' doesn't fit field 1 (inet_service): a port is a number and not a name\nt p http \n    ^^^^\nhelp: use 80\n",
        output: b"pipapo: key line 1: value\n",
        status: 13,
    },
    // nothing, if all is well
    Noted {
        words: &RUN,
        files: &[("a.nft", PORTS), ("keys", b"ip t p 80\n")],
        notes: b"",
        output: b"packet 0 thread 0 generation 0 none\n",
        status: 0,
    },
    // a desk with too many sections
    Noted {
        words: &["desk", "a.nft"],
        files: &[("a.nft", EIGHTEEN_SECTIONS)],
        notes: b"a.nft: the script has 18 sections, and desk runs 17 at most: the first, and one for each of 16 control threads; join some, by leaving lines 'round' out\n",
        output: b"pipapo: too many clerks: a.nft\n",
        status: 12,
    },
    // tests that no packet can meet, by the keys and by the plan
    Noted {
        words: &["judge", "a.nft", "rules", "keys"],
        files: &[
            ("a.nft", ADDRESSES_BESIDE_PAIRS),
            (
                "rules",
                b"chain m { in inet f bad drop ; out inet f bad in inet f web accept }\npolicy drop\n",
            ),
            ("keys", b"inet f web 10.0.0.1 . 80\n"),
        ],
        notes: b"rules:1:11: 'in' is never met: no packet has a key for inet f bad (ipv4_addr); the keys here are of ipv4_addr . inet_service\nchain m { in inet f bad drop ; out inet f bad in ine..\n          ^^\nrules:1:32: 'out' is never met: no packet has a key for inet f bad (ipv4_addr); the keys here are of ipv4_addr . inet_service\nchain m { in inet f bad drop ; out inet f bad in inet f web accept }\n                               ^^^\n",
        output: b"commit generation 1 purged 0\npacket 0 thread 0 generation 1 policy drop\n",
        status: 0,
    },
    Noted {
        words: &["judge", "a.nft", "rules", "plan", "pcap"],
        files: &[
            (
                "a.nft",
                b"add set filter s { type ipv4_addr . inet_service ; }\nadd set filter p { type inet_service ; }\n",
            ),
            ("rules", b"chain m { in ip filter p drop }\npolicy drop\n"),
            ("plan", b"ip filter s ip_saddr . dport\n"),
            ("pcap", &UDP),
        ],
        notes: b"rules:1:11: 'in' is never met: no packet has a key for ip filter p (inet_service); the keys here are of ipv4_addr . inet_service\nchain m { in ip filter p drop }\n          ^^\n",
        output: b"packet 0 thread 0 generation 0 policy drop\n",
        status: 0,
    },
];

#[test]
fn notes_on_files_and_refused_changes(rt: HostRuntime) -> Result<(), Fail> {
    for call in &CALLS {
        let wanted = Wanted::noted(call.notes, call.output, call.status);
        check_failing(&rt, rt.alloc(), call.words, call.files, NOTHING, wanted)?;
    }
    Ok(())
}
