//! Control threads that a bell holds for each other, and the sections that a gate sees of a desk.
use control_desk::{Bell, QuietBell};
use desk_run::desk;
use packet_pool::{Gate, OpenGate};
use set_script::read_script;
use std::alloc::Global;
use std::process::Abort;
use std::sync::Wait;
use std::sync::atomic::{AtomicU64, Ordering};
use std::test::Fail;
use std::thread;
use std::thread::Threads;

/// How often a held call looks before it gives up.
const TURNS: u64 = 50_000_000;

/// A bell that holds each of two control threads at its first submission until the other has come too.
#[derive(Drop)]
struct Meeting {
    /// The control threads that have come, a bit each.
    come: AtomicU64,
    /// How many calls gave up.
    given_up: AtomicU64,
}

impl Meeting {
    fn new() -> Meeting {
        Meeting {
            come: AtomicU64::new(0),
            given_up: AtomicU64::new(0),
        }
    }

    fn wait_for_both(&self) {
        for _ in 0..TURNS {
            if self.come.load(Ordering::SeqCst) == 0b110 {
                return;
            }
            thread::yield_now();
        }
        self.given_up.fetch_add(1, Ordering::SeqCst);
    }
}

impl Bell for Meeting {
    fn before(&self, clerk: u32, turn: u64) {
        if turn == 0 {
            self.come.fetch_or(1u64 << (clerk % 64), Ordering::SeqCst);
            self.wait_for_both();
        }
    }
}

/// A gate that keeps the sections that it sees as digits: a 1, and then two digits for each section. These
/// are its number and the last section's number.
#[derive(Drop)]
struct Told {
    digits: AtomicU64,
}

impl Gate for Told {
    fn section(&self, number: u64, last: u64, _packets: u64) {
        let before = self.digits.load(Ordering::SeqCst).saturating_mul(100);
        let both = number.saturating_mul(10).saturating_add(last);
        self.digits
            .store(before.saturating_add(both), Ordering::SeqCst);
    }

    fn before(&self, _thread: u32, _packet: u64) {}

    fn after(&self, _thread: u32, _packet: u64) {}

    fn closing(&self, _generation: u64) {}

    fn closed(&self, _generation: u64) {}
}

/// Runs the script of a text at a desk, and returns its output.
fn run<R: Threads + Wait + Sync + Abort, B: Bell, G: Gate>(
    rt: &R,
    alloc: Global,
    text: &str,
    bell: &B,
    gate: &G,
) -> Result<Vec<u8>, Fail> {
    let script = read_script(alloc, text.as_bytes())?;
    assert!(rt; script.sections.len() <= 17);
    let output = desk(rt, alloc, script, false, bell, gate)?;
    Ok(output.text)
}

const TWO: &str = "add set ip t p { type inet_service ; flags interval ; }\n\
                   round\n\
                   add element ip t p { 80 }\n\
                   round\n\
                   add element ip t p { 443 }\n";

const ONE_FIRST: &[u8] = b"# clerk 1 commit generation 1 purged 0\n\
                           # clerk 2 commit generation 2 purged 0\n\
                           table ip t {\n\
                           \tset p {\n\
                           \t\ttype inet_service\n\
                           \t\tflags interval\n\
                           \t\telements = { 80,\n\
                           \t\t\t     443 }\n\
                           \t}\n\
                           }\n";

const TWO_FIRST: &[u8] = b"# clerk 2 commit generation 1 purged 0\n\
                           # clerk 1 commit generation 2 purged 0\n\
                           table ip t {\n\
                           \tset p {\n\
                           \t\ttype inet_service\n\
                           \t\tflags interval\n\
                           \t\telements = { 443,\n\
                           \t\t\t     80 }\n\
                           \t}\n\
                           }\n";

#[test]
fn two_control_threads_at_once(rt: HostRuntime) -> Result<(), Fail> {
    let meeting = Meeting::new();
    let text = run(&rt, rt.alloc(), TWO, &meeting, &OpenGate)?;
    assert!(rt; text.as_slice() == ONE_FIRST || text.as_slice() == TWO_FIRST);
    assert!(rt; meeting.given_up.load(Ordering::SeqCst) == 0);
    Ok(())
}

const ONE_CLERK: &str = "add set ip t p { type inet_service ; flags interval ; }\n\
                         add element ip t p { 80 }\n\
                         round\n\
                         round\n\
                         delete element ip t p { 80 }\n\
                         commit\n\
                         add element ip t p { 443 }\n";

#[test]
fn a_gate_is_told_of_the_first_section_and_of_each_submission(rt: HostRuntime) -> Result<(), Fail> {
    let told = Told {
        digits: AtomicU64::new(1),
    };
    let _ = run(&rt, rt.alloc(), ONE_CLERK, &QuietBell, &told)?;
    assert!(rt; told.digits.load(Ordering::SeqCst) == 1_02_22_22);
    Ok(())
}
