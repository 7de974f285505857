//! Worked examples of `get` and `explain`.
use crate::calls::{Case, check_all};
use std::test::Fail;

const WEB: &str =
    "add set ip filter allowed { type ipv4_addr . inet_service ; flags interval, timeout ; }\n\
     add element ip filter allowed {\n\
     \t192.0.2.0/24 . 80-443 comment \"web\",\n\
     \t192.0.0.0/16 . 443 timeout 5m }\n\
     commit\n\
     at 60000\n\
     add element ip filter allowed { 192.0.0.0/16 . 443 timeout 10m }\n\
     add element ip filter allowed { 198.51.100.1 . 22 }\n\
     abort\n\
     add element ip filter allowed { 203.0.113.1 . 53 }\n";

const CASES: [Case; 9] = [
    // both elements hold it, and the first was inserted earlier
    Case {
        words: &[
            "get",
            "a.nft",
            "ip",
            "filter",
            "allowed",
            "192.0.2.77",
            ".",
            "443",
        ],
        script: WEB,
        keys: "",
        output: "element 0: 192.0.2.0/24 . 80-443 comment \"web\" (line 3)\n",
        status: 0,
    },
    // an element that is renewed in a transaction that is taken back
    Case {
        words: &["get", "a.nft", "filter allowed 192.0.9.9 . 443"],
        script: WEB,
        keys: "",
        output: "element 1: 192.0.0.0/16 . 443 expires 4m (line 4)\n",
        status: 0,
    },
    // five minutes have passed
    Case {
        words: &[
            "get",
            "--keep-going",
            "--at",
            "300000",
            "a.nft",
            "filter allowed 192.0.9.9 . 443",
        ],
        script: WEB,
        keys: "",
        output: "none\n",
        status: 1,
    },
    // the id of an element that was taken back
    Case {
        words: &[
            "get",
            "--at",
            "0",
            "a.nft",
            "filter allowed 203.0.113.1 . 53",
        ],
        script: WEB,
        keys: "",
        output: "element 2: 203.0.113.1 . 53 (line 10)\n",
        status: 0,
    },
    // a refused change, and an element all the same
    Case {
        words: &["get", "--keep-going", "a.nft", "t p 25"],
        script: "add set ip t p { type inet_service ; flags interval ; }\n\
                 add element ip t p { 20-30 }\n\
                 add element ip t p { 25-40 }\n",
        keys: "",
        output: "# line 3 refused overlap ip t p element 0\n\
                 element 0: 20-30 (line 2)\n",
        status: 1,
    },
    // a word that is no value of its field
    Case {
        words: &[
            "get",
            "a.nft",
            "filter",
            "allowed",
            "192.0.2.77",
            ".",
            "http",
        ],
        script: WEB,
        keys: "",
        output: "pipapo: key line 1: value\n",
        status: 13,
    },
    // a line of a key file that is no packet
    Case {
        words: &["get", "a.nft", "at", "5"],
        script: WEB,
        keys: "",
        output: "pipapo: key line 1: statement\n",
        status: 13,
    },
    // the answer and a later element; an element that has expired; the first of those that hold the most values
    Case {
        words: &["explain", "a.nft", "keys"],
        script: WEB,
        keys: "ip filter allowed 192.0.2.77 . 443\n\
               ip filter allowed 192.0.9.9 . 443\n\
               at 300000\n\
               filter allowed 192.0.9.9 . 443\n\
               filter allowed 203.0.113.1 . 80\n",
        output: "ip filter allowed 192.0.2.77 . 443\n    \
                 element 0: 192.0.2.0/24 . 80-443 comment \"web\" (line 3)\n    \
                 also in element 1: 192.0.0.0/16 . 443 (line 4)\n\
                 ip filter allowed 192.0.9.9 . 443\n    \
                 element 1: 192.0.0.0/16 . 443 (line 4), 5m left\n\
                 ip filter allowed 192.0.9.9 . 443\n    \
                 no element\n    \
                 expired: element 1: 192.0.0.0/16 . 443 (line 4), at 5m\n    \
                 192.0.9.9 is in 0 of 2 elements, 443 in 1\n    \
                 nearest: element 0: 192.0.2.0/24 . 80-443 (line 3), but for 192.0.9.9\n\
                 ip filter allowed 203.0.113.1 . 80\n    \
                 no element\n    \
                 203.0.113.1 is in 1 of 2 elements, 80 in 1\n    \
                 nearest: element 0: 192.0.2.0/24 . 80-443 (line 3), but for 203.0.113.1\n",
        status: 1,
    },
    // the last generation of each section, and a set without elements
    Case {
        words: &["explain", "--keep-going", "a.nft", "keys"],
        script: "add set ip t p { type inet_service ; flags interval ; elements = { 20-30 } }\n\
                 round\n\
                 flush set ip t p\n\
                 round\n\
                 add element ip t p { 25 }\n",
        keys: "t p 25\nround\nt p 25\n",
        output: "ip t p 25\n    \
                 no element\n    \
                 the set has no live elements\n\
                 ip t p 25\n    \
                 element 1: 25 (line 5)\n",
        status: 1,
    },
];

#[test]
fn answers(rt: HostRuntime) -> Result<(), Fail> {
    check_all(&rt, rt.alloc(), &CASES)
}
