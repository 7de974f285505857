//! Worked examples of `list`, `dump`, `stat` and `drill`.
use crate::calls::{Case, LIST, RUN, check_all};
use std::test::Fail;

const TWO_ELEMENTS: &str = "table ip filter {\n\
                           \tset s {\n\
                           \t\ttype ipv4_addr . inet_service\n\
                           \t\tflags interval\n\
                           \t\telements = { 10.0.0.5 . 1024, 192.168.1.0-192.168.2.1 . 2048 }\n\
                           \t}\n\
                           }\n";

const REFUSED: &str = "add set ip t p { type inet_service ; flags interval ; }\n\
                       add element ip t p { 80 }\n\
                       abort\n\
                       add element ip t p { 5-30 }\n\
                       commit\n\
                       add element ip t p { 10-20 }\n";

const DISJOINT: &str = "# commit generation 1 purged 0\n\
                         table ip t {\n\
                         \tset p {\n\
                         \t\ttype inet_service\n\
                         \t\tflags interval,disjoint\n\
                         \t\telements = { 10-20,\n\
                         \t\t\t     5-9 }\n\
                         \t}\n\
                         }\n";

const TWO_LISTED: &str = "# commit generation 1 purged 0\n\
                         table ip filter {\n\
                         \tset s {\n\
                         \t\ttype ipv4_addr . inet_service\n\
                         \t\tflags interval\n\
                         \t\telements = { 10.0.0.5 . 1024,\n\
                         \t\t\t     192.168.1.0-192.168.2.1 . 2048 }\n\
                         \t}\n\
                         }\n";

const WITH_TIMEOUT: &str = "# commit generation 1 purged 0\n\
                           table ip t {\n\
                           \tset p {\n\
                           \t\ttype inet_service\n\
                           \t\tflags timeout\n\
                           \t\ttimeout 1h\n\
                           \t\telements = { 80 timeout 0s,\n\
                           \t\t\t     81 expires 1h }\n\
                           \t}\n\
                           }\n";

const LISTED: [Case; 11] = [
    // an element that is added twice
    Case {
        words: &LIST,
        script: "add set ip t p { type inet_service ; flags interval ; }\n\
                 add element ip t p { 80 }\n\
                 add element ip t p { 80 }\n",
        keys: "",
        output: "# commit generation 1 purged 0\n\
                 table ip t {\n\
                 \tset p {\n\
                 \t\ttype inet_service\n\
                 \t\tflags interval\n\
                 \t\telements = { 80 }\n\
                 \t}\n\
                 }\n",
        status: 0,
    },
    // a listing, and the listing of that listing
    Case {
        words: &LIST,
        script: TWO_ELEMENTS,
        keys: "",
        output: TWO_LISTED,
        status: 0,
    },
    Case {
        words: &LIST,
        script: TWO_LISTED,
        keys: "",
        output: TWO_LISTED,
        status: 0,
    },
    // a disjoint set
    Case {
        words: &LIST,
        script: "add set ip t p { type inet_service ; flags disjoint,interval ; elements = { 10-20, 5-9 } ; }\n",
        keys: "",
        output: DISJOINT,
        status: 0,
    },
    Case {
        words: &LIST,
        script: DISJOINT,
        keys: "",
        output: DISJOINT,
        status: 0,
    },
    // lives that never end
    Case {
        words: &LIST,
        script: "add set ip t p { type inet_service ; timeout 1h ; elements = { 80 timeout 0s, 81 } }\n",
        keys: "",
        output: WITH_TIMEOUT,
        status: 0,
    },
    Case {
        words: &LIST,
        script: "add set ip t p { type inet_service ; timeout 1h ; elements = { 80 timeout never, 81 } }\n",
        keys: "",
        output: WITH_TIMEOUT,
        status: 0,
    },
    Case {
        words: &LIST,
        script: WITH_TIMEOUT,
        keys: "",
        output: WITH_TIMEOUT,
        status: 0,
    },
    // all kinds and items, and an element that has expired since
    Case {
        words: &LIST,
        script: "add set ip filter all { type ipv4_addr . ipv6_addr . ether_addr . inet_proto . inet_service . mark ; size 9 ; flags interval,timeout ; timeout 1h ; }\n\
                 add element ip filter all { 10.0.0.0/8 . 2001:db8::/32 . 0:0:0:0:0:0-0:0:0:0:0:ff . 0-255 . 0-65535 . 0-0xffffffff timeout 1h5s comment \"web\" }\n\
                 add element ip filter all { 11.0.0.1 . ::1 . 0:a:b:c:d:e . tcp . 443 . 10 timeout 0s }\n\
                 add element ip filter all { 11.0.0.2 . :: . 0:0:0:0:0:0 . 58 . 0 . 0 timeout 4s }\n\
                 commit\n\
                 at 5000\n",
        keys: "",
        output: "# commit generation 1 purged 0\n\
                 table ip filter {\n\
                 \tset all {\n\
                 \t\ttype ipv4_addr . ipv6_addr . ether_addr . inet_proto . inet_service . mark\n\
                 \t\tsize 9\n\
                 \t\tflags interval,timeout\n\
                 \t\ttimeout 1h\n\
                 \t\telements = { 10.0.0.0/8 . 2001:db8::/32 . 00:00:00:00:00:00-00:00:00:00:00:ff . 0-255 . 0-65535 . 0x00000000-0xffffffff expires 1h comment \"web\",\n\
                 \t\t\t     11.0.0.1 . ::1 . 00:0a:0b:0c:0d:0e . tcp . 443 . 0x0000000a timeout 0s,\n\
                 \t\t\t     11.0.0.2 . :: . 00:00:00:00:00:00 . ipv6-icmp . 0 . 0x00000000 expires 0s }\n\
                 \t}\n\
                 }\n",
        status: 0,
    },
    // a set by expressions is listed by its types
    Case {
        words: &LIST,
        script: "table inet t {\n\
                 \tset s {\n\
                 \t\ttypeof ct original ip saddr . th dport\n\
                 \t\telements = { 192.0.2.7 . 443 }\n\
                 \t}\n\
                 }\n",
        keys: "",
        output: "# commit generation 1 purged 0\n\
                 table inet t {\n\
                 \tset s {\n\
                 \t\ttype ipv4_addr . inet_service\n\
                 \t\telements = { 192.0.2.7 . 443 }\n\
                 \t}\n\
                 }\n",
        status: 0,
    },
    // tables in the order of their first sets
    Case {
        words: &LIST,
        script: "add set ip b x { type inet_service ; }\n\
                 add set ip a y { type inet_service ; }\n\
                 add set ip b v { type inet_service ; }\n\
                 add set inet b w { type inet_service ; }\n\
                 commit\n",
        keys: "",
        output: "# commit generation 1 purged 0\n\
                 table ip b {\n\
                 \tset x {\n\
                 \t\ttype inet_service\n\
                 \t}\n\
                 \n\
                 \tset v {\n\
                 \t\ttype inet_service\n\
                 \t}\n\
                 }\n\
                 \n\
                 table ip a {\n\
                 \tset y {\n\
                 \t\ttype inet_service\n\
                 \t}\n\
                 }\n\
                 \n\
                 table inet b {\n\
                 \tset w {\n\
                 \t\ttype inet_service\n\
                 \t}\n\
                 }\n",
        status: 0,
    },
];

#[test]
fn listings(rt: HostRuntime) -> Result<(), Fail> {
    check_all(&rt, rt.alloc(), &LISTED)
}

const OUTPUTS: [Case; 11] = [
    // refusals in each command
    Case {
        words: &RUN,
        script: REFUSED,
        keys: "",
        output: "abort generation 0\n\
                 commit generation 1 purged 0\n\
                 line 6 refused overlap ip t p element 0\n\
                 fail generation 1\n",
        status: 1,
    },
    Case {
        words: &LIST,
        script: REFUSED,
        keys: "",
        output: "# abort generation 0\n\
                 # commit generation 1 purged 0\n\
                 # line 6 refused overlap ip t p element 0\n\
                 # fail generation 1\n\
                 table ip t {\n\
                 \tset p {\n\
                 \t\ttype inet_service\n\
                 \t\tflags interval\n\
                 \t\telements = { 5-30 }\n\
                 \t}\n\
                 }\n",
        status: 1,
    },
    Case {
        words: &["dump", "a.nft", "--keep-going"],
        script: "add set ip t p { type inet_service ; }\n\
                 delete element ip t p { 80 }\n",
        keys: "",
        output: "# line 2 refused missing ip t p\n\
                 # commit generation 1 purged 0\n\
                 set ip t p\n\
                 field 0 inet_service width 8 rules 0\n",
        status: 1,
    },
    // the tables of two elements
    Case {
        words: &["dump", "a.nft"],
        script: TWO_ELEMENTS,
        keys: "",
        output: "# commit generation 1 purged 0\n\
                 set ip filter s\n\
                 field 0 ipv4_addr width 8 rules 3\n\
                 row 0 10-10 01\n\
                 row 0 192-192 06\n\
                 row 1 0-0 01\n\
                 row 1 168-168 06\n\
                 row 2 0-0 01\n\
                 row 2 1-1 02\n\
                 row 2 2-2 04\n\
                 row 3 0-1 06\n\
                 row 3 2-4 02\n\
                 row 3 5-5 03\n\
                 row 3 6-255 02\n\
                 map 0 1\n\
                 map 1 1\n\
                 map 1 1\n\
                 field 1 inet_service width 8 rules 2\n\
                 row 0 4-4 01\n\
                 row 0 8-8 02\n\
                 row 1 0-0 03\n\
                 end 0\n\
                 end 1\n",
        status: 0,
    },
    // the figures of two elements
    Case {
        words: &["stat", "a.nft"],
        script: TWO_ELEMENTS,
        keys: "",
        output: "# commit generation 1 purged 0\n\
                 set ip filter s elements 2 expired 0 expiring 0 next none\n\
                 field 0 width 8 rules 3 bytes 8192\n\
                 field 1 width 8 rules 2 bytes 4096\n\
                 total bytes 12288\n",
        status: 0,
    },
    // one element without an expiry, one that expired, two that expire later, and a change that was refused
    Case {
        words: &["stat", "--keep-going", "a.nft"],
        script: "add set ip t p { type inet_service ; flags interval, timeout ; }\n\
                 add element ip t p { 1-6, 80 timeout 10s, 443 timeout 1h, 8080 timeout 5m }\n\
                 commit\n\
                 at 60000\n\
                 delete element ip t p { 9 }\n\
                 abort\n",
        keys: "",
        output: "# commit generation 1 purged 0\n\
                 # line 5 refused missing ip t p\n\
                 # abort generation 1\n\
                 set ip t p elements 4 expired 1 expiring 2 next 4m\n\
                 field 0 width 8 rules 7 bytes 4096\n\
                 total bytes 4096\n",
        status: 1,
    },
    // a drill
    Case {
        words: &["drill", "1", "2"],
        script: "",
        keys: "",
        output: "drill elements 2 refused 0 generation 1 packets 2 matched 1 sum 1\n",
        status: 0,
    },
    Case {
        words: &["drill", "1", "--threads", "16", "2"],
        script: "",
        keys: "",
        output: "drill elements 2 refused 0 generation 1 packets 2 matched 1 sum 1\n",
        status: 0,
    },
    // sets without rules
    Case {
        words: &["dump", "a.nft"],
        script: "add set ip filter ports { type inet_service ; flags interval ; }\n\
                 add set ip filter marks { type mark ; flags interval ; }\n\
                 commit\n",
        keys: "",
        output: "# commit generation 1 purged 0\n\
                 set ip filter ports\n\
                 field 0 inet_service width 8 rules 0\n\
                 set ip filter marks\n\
                 field 0 mark width 8 rules 0\n",
        status: 0,
    },
    // the line of another program, by one thread and by four
    Case {
        words: &["drill", "7", "--threads", "1", "2000"],
        script: "",
        keys: "",
        output: "drill elements 2000 refused 0 generation 1 packets 2000 matched 1000 sum 1017492\n",
        status: 0,
    },
    Case {
        words: &["drill", "7", "--threads", "4", "2000"],
        script: "",
        keys: "",
        output: "drill elements 2000 refused 0 generation 1 packets 2000 matched 1000 sum 1017492\n",
        status: 0,
    },
];

#[test]
fn dumps_drills_and_refusals(rt: HostRuntime) -> Result<(), Fail> {
    check_all(&rt, rt.alloc(), &OUTPUTS)
}
