//! The lines of packets with the elements that were found.
use packet_pool::OpenGate;
use pipapo::{read_keys, read_script, transcript_with_elements};
use std::alloc::Global;
use std::process::Abort;
use std::test::Fail;
use std::thread::Threads;

/// The abort in line 5 takes element 2 back. So line 6 makes element 2. Line 7 deletes element 1.
const SCRIPT: &[u8] = b"add set ip t p { type inet_service ; flags interval ; }
add element ip t p { 80-90 comment \"web\", 443 }
round
round
add element ip t p { 25 comment \"taken back\" } ; abort
add element ip t p { 22 }
delete element ip t p { 443 }
";

/// The first packets come after the first section, and the others after all sections.
const KEYS: &[u8] = b"ip t p 85
ip t p 443
ip t p 22
round
round
ip t p 443
ip t p 22
";

const TEXT: &[u8] = b"commit generation 1 purged 0
packet 0 thread 0 generation 1 element 0 { 80-90 comment \"web\" } line 2
packet 1 thread 0 generation 1 element 1 { 443 } line 2
packet 2 thread 0 generation 1 none
abort generation 1
commit generation 2 purged 0
packet 3 thread 0 generation 2 none
packet 4 thread 0 generation 2 element 2 { 22 } line 6
";

fn written<R: Threads + Sync + Abort>(rt: &R, alloc: Global) -> Result<Vec<u8>, Fail> {
    let script = read_script(alloc, SCRIPT)?;
    assert!(rt; script.schema.len() <= 64);
    let keys = read_keys(alloc, &script.schema, KEYS)?;
    let output = transcript_with_elements(rt, alloc, script, &keys, false, 1, &OpenGate)?;
    Ok(output.text)
}

#[test]
fn lines_name_the_elements_that_were_found(rt: HostRuntime) -> Result<(), Fail> {
    let text = written(&rt, rt.alloc())?;
    assert!(rt; text.as_slice() == TEXT);
    Ok(())
}
