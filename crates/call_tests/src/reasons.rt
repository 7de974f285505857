//! The line and the reason of a text that isn't in its grammar.
use crate::calls::{File, RUN, check};
use std::alloc::Global;
use std::process::Abort;
use std::sync::Wait;
use std::test::Fail;
use std::thread::Threads;

const PORTS: &str = "add set ip t p { type inet_service ; }\n";

/// Runs a script beside a key file, one of which is refused.
fn check_refused<R: Threads + Wait + Abort + Sync>(
    rt: &R,
    alloc: Global,
    script: &str,
    keys: &str,
    line: &str,
    status: u8,
) -> Result<(), Fail> {
    let files: [File<'_>; 2] = [("a.nft", script.as_bytes()), ("keys", keys.as_bytes())];
    check(rt, alloc, &RUN, &files, line.as_bytes(), status)
}

const SCRIPTS: [(&str, &str); 12] = [
    (
        "add set ip t p { type inet_service ; }\nadd $",
        "pipapo: script line 2: character\n",
    ),
    (
        "add set ip t p { type inet_service ; }\nadd",
        "pipapo: script line 2: end\n",
    ),
    (
        "add set ip t p { type inet_service ; }\nadd element ip t p { 10",
        "pipapo: script line 2: end\n",
    ),
    (
        "add set ip t p { type inet_service ; flags interval ; }\nadd element ip t p { 10-",
        "pipapo: script line 2: value\n",
    ),
    (
        "add set ip t p { type inet_service ; }\nadd rule ip t c drop\n",
        "pipapo: script line 2: left out\n",
    ),
    (
        "add set ip t p { type ifname ; }\n",
        "pipapo: script line 1: type\n",
    ),
    (
        "add set ip t p { type inet_service ; }\nadd element ip t p { 70000 }\n",
        "pipapo: script line 2: value\n",
    ),
    (
        "add set ip t p { type inet_service ; timeout 1w ; }\n",
        "pipapo: script line 1: time\n",
    ),
    ("at 5\nat 4\n", "pipapo: script line 2: moment\n"),
    (
        "add set ip t p { type inet_service ; }\nadd element ip t q { 80 }\n",
        "pipapo: script line 2: set\n",
    ),
    (
        "add set ip t p { type inet_service ; size 0 ; }\n",
        "pipapo: script line 1: number\n",
    ),
    ("\n\nlist ruleset\n", "pipapo: script line 3: statement\n"),
];

#[test]
fn reasons_of_a_script(rt: HostRuntime) -> Result<(), Fail> {
    for (script, line) in SCRIPTS {
        check_refused(&rt, rt.alloc(), script, "", line, 3)?;
    }
    Ok(())
}

const KEYS: [(&str, &str); 7] = [
    ("ip t p $\n", "pipapo: keys line 1: character\n"),
    ("ip t p", "pipapo: keys line 1: end\n"),
    ("ip t p *\n", "pipapo: keys line 1: left out\n"),
    ("\nip t p 70000\n", "pipapo: keys line 2: value\n"),
    ("at x\n", "pipapo: keys line 1: moment\n"),
    ("ip t q 80\n", "pipapo: keys line 1: set\n"),
    ("ip t p 80 . 81\n", "pipapo: keys line 1: statement\n"),
];

#[test]
fn reasons_of_a_key_file(rt: HostRuntime) -> Result<(), Fail> {
    for (keys, line) in KEYS {
        check_refused(&rt, rt.alloc(), PORTS, keys, line, 4)?;
    }
    Ok(())
}
