//! Packet threads that a gate holds for each other: a command that ignores `--threads` never passes it.
use crate::calls::{File, run_call, shelf_of};
use crate::other_files::UDP;
use packet_pool::Gate;
use pip_base::{MemNotes, MemSink, Sink};
use std::alloc::Global;
use std::process::Abort;
use std::sync::Wait;
use std::sync::atomic::{AtomicU64, Ordering};
use std::test::Fail;
use std::thread;
use std::thread::Threads;

/// How often a held packet looks before it gives up.
const TURNS: u64 = 50_000_000;

/// A gate that holds packet 0 and packet 16, which are of two batches, until both have come.
#[derive(Drop)]
struct Meeting {
    /// How many of the two have come.
    come: AtomicU64,
    /// How many gave up.
    given_up: AtomicU64,
}

impl Meeting {
    fn new() -> Meeting {
        Meeting {
            come: AtomicU64::new(0),
            given_up: AtomicU64::new(0),
        }
    }
}

impl Gate for Meeting {
    fn before(&self, _thread: u32, packet: u64) {
        if packet % 16 == 0 {
            self.come.fetch_add(1, Ordering::SeqCst);
            for _ in 0..TURNS {
                if self.come.load(Ordering::SeqCst) >= 2 {
                    return;
                }
                thread::yield_now();
            }
            self.given_up.fetch_add(1, Ordering::SeqCst);
        }
    }

    fn after(&self, _thread: u32, _packet: u64) {}

    fn closing(&self, _generation: u64) {}

    fn closed(&self, _generation: u64) {}
}

/// Calls a command with 32 packets on two threads, which meet.
fn check_meeting<R: Threads + Wait + Abort + Sync>(
    rt: &R,
    alloc: Global,
    words: &[&str],
    files: &[File<'_>],
) -> Result<(), Fail> {
    let meeting = Meeting::new();
    let mut shelf = shelf_of(alloc, files, 0)?;
    let mut sink = MemSink::new(alloc, 100, 10_000)?;
    let mut notes = MemNotes::new(alloc);
    let status = run_call(
        rt, alloc, words, &mut shelf, &mut sink, &mut notes, &meeting,
    )?;
    assert!(rt; status == 0);
    assert!(rt; meeting.come.load(Ordering::SeqCst) == 2);
    assert!(rt; meeting.given_up.load(Ordering::SeqCst) == 0);
    Ok(())
}

/// So many copies of these bytes.
fn copies(alloc: Global, front: &[u8], bytes: &[u8], count: u32) -> Result<Vec<u8>, Fail> {
    let mut all = Vec::from_slice(alloc, front)?;
    for _ in 0..count {
        all.extend_from_slice(bytes)?;
    }
    Ok(all)
}

#[test]
fn two_threads_of_each_command(rt: HostRuntime) -> Result<(), Fail> {
    let keys = copies(rt.alloc(), b"", b"ip t p 1.1.1.1\n", 32)?;
    let capture = copies(rt.alloc(), &UDP[..24], &UDP[24..], 32)?;
    let files: [File<'_>; 5] = [
        ("a.nft", b"add set ip t p { type ipv4_addr ; }\n"),
        ("keys", keys.as_slice()),
        ("rules", b"chain main { in ip t p accept }\npolicy drop\n"),
        ("plan", b"ip t p ip_saddr\n"),
        ("pcap", capture.as_slice()),
    ];
    let commands: [&[&str]; 4] = [
        &["run", "a.nft", "keys", "--threads", "2"],
        &["judge", "a.nft", "rules", "keys", "--threads", "2"],
        &["capture", "a.nft", "plan", "pcap", "--threads", "2"],
        &["drill", "1", "32", "--threads", "2"],
    ];
    for words in commands {
        check_meeting(&rt, rt.alloc(), words, &files)?;
    }
    Ok(())
}
