//! Worked examples of `run`.
use crate::calls::{Case, RUN, RUN_ON, check_all};
use std::test::Fail;

const TWO_ELEMENTS: &str = "table ip filter {\n\
                           \tset s {\n\
                           \t\ttype ipv4_addr . inet_service\n\
                           \t\tflags interval\n\
                           \t\telements = { 10.0.0.5 . 1024, 192.168.1.0-192.168.2.1 . 2048 }\n\
                           \t}\n\
                           }\n";

const ELEMENTS: [Case; 10] = [
    // two single values
    Case {
        words: &RUN,
        script: "add set ip filter s { type ipv4_addr . inet_service ; flags interval ; }\n\
                 add element ip filter s { 10.0.0.5 . 1024 }\n\
                 add element ip filter s { 10.0.0.6 . 1024 }\n",
        keys: "ip filter s 10.0.0.6 . 1024\n\
               ip filter s 10.0.0.7 . 1024\n",
        output: "commit generation 1 purged 0\n\
                 packet 0 thread 0 generation 1 element 1\n\
                 packet 1 thread 0 generation 1 none\n",
        status: 0,
    },
    // an element again
    Case {
        words: &RUN,
        script: "add set ip t p { type ipv4_addr . inet_service ; flags interval ; }\n\
                 add element ip t p { 10.0.0.5 . 80 }\n\
                 add element ip t p { 10.0.0.5 . 80 }\n\
                 add element ip t p { 10.0.0.5 . 81 }",
        keys: "ip t p 10.0.0.5 . 80\n\
               ip t p 10.0.0.5 . 81",
        output: "commit generation 1 purged 0\n\
                 packet 0 thread 0 generation 1 element 0\n\
                 packet 1 thread 0 generation 1 element 1\n",
        status: 0,
    },
    // empty files, and a set without elements
    Case {
        words: &RUN,
        script: "",
        keys: "",
        output: "",
        status: 0,
    },
    Case {
        words: &RUN,
        script: "add set ip t p { type inet_service ; flags interval ; }\n",
        keys: "ip t p 80\n",
        output: "packet 0 thread 0 generation 0 none\n",
        status: 0,
    },
    // four kinds of fields
    Case {
        words: &RUN,
        script: "add set inet t m { type ipv6_addr . ether_addr . inet_proto . mark ; }\n\
                 add element inet t m { 2001:db8::1 . 0:1:2:a:b:c . tcp . 0xff }\n",
        keys: "inet t m 2001:DB8:0::1 . 00:01:02:0A:0B:0C . 6 . 255\n",
        output: "commit generation 1 purged 0\n\
                 packet 0 thread 0 generation 1 element 0\n",
        status: 0,
    },
    // a range and a port
    Case {
        words: &RUN,
        script: TWO_ELEMENTS,
        keys: "ip filter s 192.168.1.5 . 2048\n",
        output: "commit generation 1 purged 0\n\
                 packet 0 thread 0 generation 1 element 1\n",
        status: 0,
    },
    // the edges of a range
    Case {
        words: &RUN,
        script: TWO_ELEMENTS,
        keys: "ip filter s 192.168.2.1 . 2048\n\
               ip filter s 192.168.2.2 . 2048\n\
               ip filter s 192.168.1.5 . 1024\n",
        output: "commit generation 1 purged 0\n\
                 packet 0 thread 0 generation 1 element 1\n\
                 packet 1 thread 0 generation 1 none\n\
                 packet 2 thread 0 generation 1 none\n",
        status: 0,
    },
    // a later interval that encloses an earlier one
    Case {
        words: &RUN,
        script: "add set ip t p { type inet_service ; flags interval ; }\n\
                 add element ip t p { 10-20 }\n\
                 add element ip t p { 5-30 }\n",
        keys: "ip t p 15\n\
               ip t p 7\n\
               ip t p 30\n\
               ip t p 31\n",
        output: "commit generation 1 purged 0\n\
                 packet 0 thread 0 generation 1 element 0\n\
                 packet 1 thread 0 generation 1 element 1\n\
                 packet 2 thread 0 generation 1 element 1\n\
                 packet 3 thread 0 generation 1 none\n",
        status: 0,
    },
    // a disjoint set
    Case {
        words: &RUN_ON,
        script: "add set ip t p { type inet_service ; flags interval,disjoint ; }\n\
                 add element ip t p { 10-20 }\n\
                 add element ip t p { 5-9 }\n\
                 add element ip t p { 5-30 }\n",
        keys: "ip t p 7\n",
        output: "line 4 refused overlap ip t p element 0\n\
                 commit generation 1 purged 0\n\
                 packet 0 thread 0 generation 1 element 1\n",
        status: 1,
    },
    // a disjoint set of two fields
    Case {
        words: &RUN_ON,
        script: "add set ip t p { type ipv4_addr . inet_service ; flags interval,disjoint ; }\n\
                 add element ip t p { 10.0.0.0/8 . 10-20 }\n\
                 add element ip t p { 10.1.0.0/16 . 5-30 }\n\
                 add element ip t p { 11.0.0.0/8 . 5-30 }\n\
                 add element ip t p { 10.0.0.0/8 . 21-30 }\n",
        keys: "ip t p 11.0.0.0 . 5\n\
               ip t p 10.0.0.0 . 21\n",
        output: "line 3 refused overlap ip t p element 0\n\
                 commit generation 1 purged 0\n\
                 packet 0 thread 0 generation 1 element 1\n\
                 packet 1 thread 0 generation 1 element 2\n",
        status: 1,
    },
];

#[test]
fn elements_and_their_keys(rt: HostRuntime) -> Result<(), Fail> {
    check_all(&rt, rt.alloc(), &ELEMENTS)
}

const CHANGES: [Case; 10] = [
    // an interval inside an earlier one, in both modes
    Case {
        words: &RUN,
        script: "add set ip t p { type inet_service ; flags interval ; }\n\
                 add element ip t p { 5-30 }\n\
                 add element ip t p { 10-20 }\n",
        keys: "ip t p 15\n",
        output: "line 3 refused overlap ip t p element 0\n\
                 fail generation 0\n\
                 packet 0 thread 0 generation 0 none\n",
        status: 1,
    },
    Case {
        words: &RUN_ON,
        script: "add set ip t p { type inet_service ; flags interval ; }\n\
                 add element ip t p { 5-30 }\n\
                 add element ip t p { 10-20 }\n",
        keys: "ip t p 15\n",
        output: "line 3 refused overlap ip t p element 0\n\
                 commit generation 1 purged 0\n\
                 packet 0 thread 0 generation 1 element 0\n",
        status: 1,
    },
    // a full set
    Case {
        words: &RUN,
        script: "add set ip t p { type inet_service ; size 1 ; }\n\
                 add element ip t p { 80, 81 }\n",
        keys: "",
        output: "line 2 refused full ip t p\n\
                 fail generation 0\n",
        status: 1,
    },
    // an element twice: added, and created
    Case {
        words: &RUN,
        script: "add set ip t p { type inet_service ; flags interval ; }\n\
                 add element ip t p { 80 }\n\
                 add element ip t p { 80 }\n\
                 create element ip t p { 80 }\n",
        keys: "",
        output: "line 4 refused exists ip t p element 0\n\
                 fail generation 0\n",
        status: 1,
    },
    Case {
        words: &RUN,
        script: "add set ip t p { type inet_service ; flags interval ; }\n\
                 add element ip t p { 80 }\n\
                 add element ip t p { 80 }\n",
        keys: "",
        output: "commit generation 1 purged 0\n",
        status: 0,
    },
    // a missing element: deleted, and destroyed
    Case {
        words: &RUN,
        script: "add set ip t p { type inet_service ; flags interval ; }\n\
                 destroy element ip t p { 80 }\n\
                 delete element ip t p { 80 }\n",
        keys: "",
        output: "line 3 refused missing ip t p\n\
                 fail generation 0\n",
        status: 1,
    },
    Case {
        words: &RUN,
        script: "add set ip t p { type inet_service ; flags interval ; }\n\
                 destroy element ip t p { 80 }\n",
        keys: "",
        output: "commit generation 1 purged 0\n",
        status: 0,
    },
    // a deletion before the commit
    Case {
        words: &RUN,
        script: "add set ip t p { type inet_service ; flags interval ; }\n\
                 add element ip t p { 10-20, 5-30 }\n\
                 delete element ip t p { 10-20 }\n",
        keys: "ip t p 15\n\
               ip t p 31\n",
        output: "commit generation 1 purged 0\n\
                 packet 0 thread 0 generation 1 element 1\n\
                 packet 1 thread 0 generation 1 none\n",
        status: 0,
    },
    // a deletion in a later transaction
    Case {
        words: &RUN,
        script: "add set ip t p { type inet_service ; flags interval ; }\n\
                 add element ip t p { 10-20, 5-30 }\n\
                 commit\n\
                 delete element ip t p { 10-20 }\n",
        keys: "ip t p 15\n",
        output: "commit generation 1 purged 0\n\
                 commit generation 2 purged 0\n\
                 packet 0 thread 0 generation 2 element 1\n",
        status: 0,
    },
    // a flush, after which numbers go on
    Case {
        words: &RUN,
        script: "add set ip t p { type inet_service ; flags interval ; }\n\
                 add element ip t p { 80, 81 }\n\
                 flush set ip t p\n\
                 add element ip t p { 82 }\n",
        keys: "ip t p 82\n\
               ip t p 80\n",
        output: "commit generation 1 purged 0\n\
                 packet 0 thread 0 generation 1 element 2\n\
                 packet 1 thread 0 generation 1 none\n",
        status: 0,
    },
];

#[test]
fn changes_and_their_refusals(rt: HostRuntime) -> Result<(), Fail> {
    check_all(&rt, rt.alloc(), &CHANGES)
}

const LIVES: [Case; 4] = [
    // the moment of an expiry
    Case {
        words: &RUN,
        script: "add set ip t p { type inet_service ; flags interval,timeout ; }\n\
                 add element ip t p { 80 timeout 30s }\n",
        keys: "at 29999\n\
               ip t p 80\n\
               at 30000\n\
               ip t p 80\n",
        output: "commit generation 1 purged 0\n\
                 packet 0 thread 0 generation 1 element 0\n\
                 packet 1 thread 0 generation 1 none\n",
        status: 0,
    },
    // an element that expired, added again
    Case {
        words: &RUN,
        script: "add set ip t p { type inet_service ; flags interval,timeout ; }\n\
                 add element ip t p { 80 timeout 30s }\n\
                 commit\n\
                 at 30000\n\
                 add element ip t p { 80 }\n",
        keys: "at 30000\n\
               ip t p 80\n\
               at 0\n\
               ip t p 80\n",
        output: "commit generation 1 purged 0\n\
                 commit generation 2 purged 1\n\
                 packet 0 thread 0 generation 2 element 1\n\
                 packet 1 thread 0 generation 2 element 1\n",
        status: 0,
    },
    // an expiry that is renewed, and one that is not
    Case {
        words: &RUN,
        script: "add set ip t p { type inet_service ; flags interval,timeout ; }\n\
                 add element ip t p { 80 timeout 30s }\n\
                 commit\n\
                 at 20000\n\
                 add element ip t p { 80 timeout 30s }\n",
        keys: "at 30000\n\
               ip t p 80\n\
               at 49999\n\
               ip t p 80\n\
               at 50000\n\
               ip t p 80\n",
        output: "commit generation 1 purged 0\n\
                 commit generation 2 purged 0\n\
                 packet 0 thread 0 generation 2 element 0\n\
                 packet 1 thread 0 generation 2 element 0\n\
                 packet 2 thread 0 generation 2 none\n",
        status: 0,
    },
    Case {
        words: &RUN,
        script: "add set ip t p { type inet_service ; flags interval,timeout ; }\n\
                 add element ip t p { 80 timeout 30s }\n\
                 commit\n\
                 at 20000\n\
                 create element ip t p { 80 timeout 30s }\n",
        keys: "at 30000\n\
               ip t p 80\n\
               at 49999\n\
               ip t p 80\n\
               at 50000\n\
               ip t p 80\n",
        output: "commit generation 1 purged 0\n\
                 line 5 refused exists ip t p element 0\n\
                 fail generation 1\n\
                 packet 0 thread 0 generation 1 none\n\
                 packet 1 thread 0 generation 1 none\n\
                 packet 2 thread 0 generation 1 none\n",
        status: 1,
    },
];

#[test]
fn elements_with_a_life(rt: HostRuntime) -> Result<(), Fail> {
    check_all(&rt, rt.alloc(), &LIVES)
}

const LISTINGS: [Case; 4] = [
    // a listing of each family
    Case {
        words: &RUN,
        script: "table ip6 fw {\n\
                 \tset allowed {\n\
                 \t\ttype ipv6_addr . inet_proto . inet_service\n\
                 \t\telements = { 2001:db8::1 . tcp . 443,\n\
                 \t\t\t     2001:db8::2 . udp . 53 }\n\
                 \t}\n\
                 }\n",
        keys: "ip6 fw allowed 2001:db8::2 . 17 . 53\n\
               ip6 fw allowed 2001:db8::1 . udp . 443\n",
        output: "commit generation 1 purged 0\n\
                 packet 0 thread 0 generation 1 element 1\n\
                 packet 1 thread 0 generation 1 none\n",
        status: 0,
    },
    Case {
        words: &RUN,
        script: "table inet fw {\n\
                 \tset allowed {\n\
                 \t\ttype ipv6_addr . inet_proto . inet_service\n\
                 \t\telements = { 2001:db8::1 . tcp . 443,\n\
                 \t\t\t     2001:db8::2 . udp . 53 }\n\
                 \t}\n\
                 }\n",
        keys: "inet fw allowed 2001:db8::2 . 17 . 53\n\
               inet fw allowed 2001:db8::1 . udp . 443\n",
        output: "commit generation 1 purged 0\n\
                 packet 0 thread 0 generation 1 element 1\n\
                 packet 1 thread 0 generation 1 none\n",
        status: 0,
    },
    Case {
        words: &RUN,
        script: "table fw {\n\
                 \tset allowed {\n\
                 \t\ttype ipv6_addr . inet_proto . inet_service\n\
                 \t\telements = { 2001:db8::1 . tcp . 443,\n\
                 \t\t\t     2001:db8::2 . udp . 53 }\n\
                 \t}\n\
                 }\n",
        keys: "ip fw allowed 2001:db8::2 . 17 . 53\n\
               ip fw allowed 2001:db8::1 . udp . 443\n",
        output: "commit generation 1 purged 0\n\
                 packet 0 thread 0 generation 1 element 1\n\
                 packet 1 thread 0 generation 1 none\n",
        status: 0,
    },
    // a listing with the rest of each life
    Case {
        words: &RUN,
        script: "table ip filter {\n\
                 \tset s {\n\
                 \t\ttype ipv4_addr . inet_service\n\
                 \t\tflags interval,timeout\n\
                 \t\telements = { 10.0.0.0/8 . 80 timeout 1h expires 59m30s comment \"web\",\n\
                 \t\t\t     192.168.1.0-192.168.2.1 . 1024-65535 timeout 1h expires 59m30s996ms }\n\
                 \t}\n\
                 }\n",
        keys: "at 3569999\n\
               ip filter s 10.1.2.3 . 80\n\
               at 3570000\n\
               ip filter s 10.1.2.3 . 80\n\
               ip filter s 192.168.2.0 . 40000\n",
        output: "commit generation 1 purged 0\n\
                 packet 0 thread 0 generation 1 element 0\n\
                 packet 1 thread 0 generation 1 none\n\
                 packet 2 thread 0 generation 1 element 1\n",
        status: 0,
    },
];

#[test]
fn listings_of_nft_are_scripts(rt: HostRuntime) -> Result<(), Fail> {
    check_all(&rt, rt.alloc(), &LISTINGS)
}
