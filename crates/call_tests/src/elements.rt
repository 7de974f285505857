//! Worked examples of the option `--elements`.
use crate::calls::{Case, NOTHING, RUN, Wanted, check_all, check_failing};
use std::test::Fail;

const WITH_ELEMENTS: [&str; 4] = ["run", "a.nft", "--elements", "keys"];

const WEB: &str = "add set ip t p { type ipv4_addr . inet_service ; flags interval ; }\n\
                   add element ip t p { 192.0.2.0/24 . 80-443 comment \"web\" }\n";

const WEB_KEYS: &str = "ip t p 192.0.2.7 . 443\n\
                        ip t p 192.0.2.7 . 22\n";

const LINES: [Case; 4] = [
    // an addition, and none
    Case {
        words: &WITH_ELEMENTS,
        script: WEB,
        keys: WEB_KEYS,
        output: "commit generation 1 purged 0\n\
                 packet 0 thread 0 generation 1 element 0 { 192.0.2.0/24 . 80-443 comment \"web\" } line 2\n\
                 packet 1 thread 0 generation 1 none\n",
        status: 0,
    },
    // without the option
    Case {
        words: &RUN,
        script: WEB,
        keys: WEB_KEYS,
        output: "commit generation 1 purged 0\n\
                 packet 0 thread 0 generation 1 element 0\n\
                 packet 1 thread 0 generation 1 none\n",
        status: 0,
    },
    // a ruleset
    Case {
        words: &["run", "--elements", "a.nft", "--sets", "keys"],
        script: "table ip t {\n\
                 \tset p {\n\
                 \t\ttype inet_service\n\
                 \t\telements = { 22,\n\
                 \t\t\t     80 }\n\
                 \t}\n\
                 }\n",
        keys: "ip t p 80\n",
        output: "commit generation 1 purged 0\n\
                 packet 0 thread 0 generation 1 element 1 { 80 } line 5\n",
        status: 0,
    },
    // after an abort the id is given again
    Case {
        words: &WITH_ELEMENTS,
        script: "add set ip t p { type inet_service ; flags interval ; }\n\
                 add element ip t p { 80 }\n\
                 abort\n\
                 add element ip t p { 81 }\n",
        keys: "ip t p 81\n",
        output: "abort generation 0\n\
                 commit generation 1 purged 0\n\
                 packet 0 thread 0 generation 1 element 0 { 81 } line 4\n",
        status: 0,
    },
];

/// Commands without lines of packets that are looked up, and an option that comes twice.
const NO_COMMANDS: [&[&str]; 4] = [
    &["list", "a.nft", "--elements"],
    &["judge", "a.nft", "rules", "keys", "--elements"],
    &["get", "--elements", "a.nft", "ip t p 80"],
    &["run", "--elements", "a.nft", "keys", "--elements"],
];

#[test]
fn lines_with_elements(rt: HostRuntime) -> Result<(), Fail> {
    check_all(&rt, rt.alloc(), &LINES)
}

#[test]
fn commands_without_lines(rt: HostRuntime) -> Result<(), Fail> {
    for words in &NO_COMMANDS {
        check_failing(&rt, rt.alloc(), words, &[], NOTHING, Wanted::status(2))?;
    }
    Ok(())
}
