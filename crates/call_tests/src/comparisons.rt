//! Worked examples of `compare`.
use crate::calls::{File, check};
use std::test::Fail;

/// A comparison of the scripts `old.nft` and `new.nft`, its output and its status.
struct Pair {
    old: &'static str,
    new: &'static str,
    output: &'static str,
    status: u8,
}

const PAIRS: [Pair; 8] = [
    // four addresses one by one, and their /30
    Pair {
        old: "add set ip t s { type ipv4_addr ; flags interval ; elements = { 10.0.0.0/30 } }\n",
        new: "add set ip t s { type ipv4_addr ; }\n\
              add element ip t s { 10.0.0.3, 10.0.0.1, 10.0.0.2, 10.0.0.0 }\n",
        output: "same ip t s\n",
        status: 0,
    },
    // one corner key of many
    Pair {
        old: "add set ip t s { type ipv4_addr . inet_service ; flags interval ; elements = { 10.0.0.0/8 . 1-1000 } }\n",
        new: "add set ip t s { type ipv4_addr . inet_service ; flags interval ; }\n\
              add element ip t s { 10.0.0.0-10.255.255.254 . 1-1000 }\n\
              add element ip t s { 10.255.255.255 . 1-999 }\n",
        output: "differs ip t s: 10.255.255.255 . 1000 is in element 0 of old.nft (line 1) and in no element of new.nft\n",
        status: 1,
    },
    // both directions, the least key of each, and the first of two elements that hold it
    Pair {
        old: "add set ip t s { type inet_service ; flags interval ; }\n\
              add element ip t s { 30-40 }\n\
              add element ip t s { 20-50 }\n",
        new: "add set ip t s { type inet_service ; flags interval ; }\n\
              add element ip t s { 10-29 }\n\
              add element ip t s { 31-60 }\n",
        output: "differs ip t s: 30 is in element 0 of old.nft (line 2) and in no element of new.nft\n\
                 differs ip t s: 10 is in element 0 of new.nft (line 2) and in no element of old.nft\n",
        status: 1,
    },
    // an element that has expired at its script's last moment, and one that was taken back and came again
    Pair {
        old: "add set ip t s { type inet_service ; flags timeout ; }\n\
              add element ip t s { 80 timeout 5s }\n\
              commit\n\
              at 5000\n\
              add element ip t s { 81 }\n\
              abort\n\
              add element ip t s { 82 }\n",
        new: "add set ip t s { type inet_service ; elements = { 80 } }\n",
        output: "differs ip t s: 82 is in element 1 of old.nft (line 7) and in no element of new.nft\n\
                 differs ip t s: 80 is in element 0 of new.nft (line 1) and in no element of old.nft\n",
        status: 1,
    },
    // the order of the lines, sets of one script, and sets of different types
    Pair {
        old: "add set ip t a { type inet_service ; }\n\
              add set ip6 t b { type inet_service ; }\n\
              add set ip t c { type inet_service ; }\n",
        new: "add set ip t d { type inet_service ; }\n\
              add set ip t c { type inet_proto ; }\n\
              add set ip t b { type inet_service ; }\n\
              add set ip t a { type inet_service ; }\n",
        output: "same ip t a\n\
                 only in old.nft: ip6 t b\n\
                 differs ip t c: the types are different\n\
                 only in new.nft: ip t d\n\
                 only in new.nft: ip t b\n",
        status: 1,
    },
    // a refused change of each, in the same line
    Pair {
        old: "add set ip t s { type inet_service ; flags interval ; elements = { 1-2 } }\n\
              add element ip t s { 2-3 }\n",
        new: "add set ip t s { type inet_service ; flags interval ; elements = { 1-2 } }\n\
              create element ip t s { 1-2 }\n",
        output: "# old.nft line 2 refused overlap ip t s element 0\n\
                 # new.nft line 2 refused exists ip t s element 0\n\
                 same ip t s\n",
        status: 1,
    },
    // bad scripts
    Pair {
        old: "add set ip t s { type port ; }\n",
        new: "",
        output: "pipapo: script line 1: type\n",
        status: 3,
    },
    Pair {
        old: "",
        new: "\nadd set ip t s { type port ; }\n",
        output: "pipapo: second script line 2: type\n",
        status: 3,
    },
];

#[test]
fn compares(rt: HostRuntime) -> Result<(), Fail> {
    for pair in &PAIRS {
        let files: [File<'_>; 2] = [
            ("old.nft", pair.old.as_bytes()),
            ("new.nft", pair.new.as_bytes()),
        ];
        let words = ["compare", "old.nft", "--keep-going", "new.nft"];
        check(
            &rt,
            rt.alloc(),
            &words,
            &files,
            pair.output.as_bytes(),
            pair.status,
        )?;
    }
    Ok(())
}
