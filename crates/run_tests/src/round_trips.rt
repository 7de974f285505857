//! Lists scripts that look random. A listing that is read as a script and listed again stays the same.
use crate::scripts::script;
use packet_pool::OpenGate;
use script_run::listing;
use set_script::read_script;
use std::alloc::Global;
use std::process::Abort;
use std::test::Fail;

/// The listing of a script, without the lines of its reports.
fn listed(alloc: Global, text: &[u8]) -> Result<Vec<u8>, Fail> {
    let output = listing(alloc, read_script(alloc, text)?, true, &OpenGate)?;
    sets_of(alloc, output.text.as_slice())
}

/// The lines that are no comments.
fn sets_of(alloc: Global, text: &[u8]) -> Result<Vec<u8>, Fail> {
    let mut sets = Vec::new(alloc);
    for line in text.split(|byte| *byte == b'\n') {
        if line.first() != Some(&b'#') {
            sets.extend_from_slice(line)?;
            sets.push(b'\n')?;
        }
    }
    Ok(sets)
}

/// Lists a listing again, and compares the two.
fn check_again(rt: &impl Abort, alloc: Global, first: &[u8]) -> Result<(), Fail> {
    let again = listed(alloc, first)?;
    assert!(rt; again.as_slice() == first);
    Ok(())
}

/// Lists the script of a seed twice, and returns whether it has sets.
fn check(rt: &impl Abort, alloc: Global, seed: u64) -> Result<bool, Fail> {
    let text = script(alloc, seed)?;
    let first = listed(alloc, text.as_bytes())?;
    check_again(rt, alloc, first.as_slice())?;
    Ok(first.len() > 40)
}

#[test]
fn listings_are_listed_as_they_are(rt: HostRuntime) -> Result<(), Fail> {
    let mut with_sets = 0u32;
    for seed in 1..301u64 {
        if check(&rt, rt.alloc(), seed)? {
            with_sets = with_sets.saturating_add(1);
        }
    }
    assert!(rt; with_sets > 180);
    Ok(())
}
