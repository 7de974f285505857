//! Runs in which a gate keeps an order: packet threads beside one another, and beside the control.
ghost use Rattle.std.specs.Prelude.{◌≤◌, ◌<◌, IfOk, All};
ghost use Rattle.set_model.specs.Runnable.{IsFitting};

use key_file::read_keys;
use packet_pool::{Gate, OpenGate};
use script_run::transcript;
use set_model::{Keys, Schema};
use set_script::read_script;
use std::alloc::Global;
use std::process::Abort;
use std::sync::atomic::{AtomicU64, Ordering};
use std::test::Fail;
use std::thread;
use std::thread::Threads;

/// How often a held call looks before it gives up.
const TURNS: u64 = 50_000_000;

/// Which calls wait for which.
#[derive(Clone, Copy)]
enum Order {
    /// Two packets wait for each other.
    Meeting(u64, u64),
    /// The first commit waits for packet 1, and that packet waits for the commit.
    Crossing,
    /// Packets wait for the commit of their round. Each round has two packets and makes one generation.
    CommitsFirst,
    /// Commits wait for the packets of their round.
    PacketsFirst,
}

/// A gate that holds packets and commits in an order.
#[derive(Drop)]
struct Hold {
    order: Order,
    /// The packets that have come, a bit each.
    come: AtomicU64,
    /// How many packets have left.
    left: AtomicU64,
    /// The last generation.
    last: AtomicU64,
    /// How many calls gave up.
    given_up: AtomicU64,
}

impl Hold {
    fn new(order: Order) -> Hold {
        Hold {
            order,
            come: AtomicU64::new(0),
            left: AtomicU64::new(0),
            last: AtomicU64::new(0),
            given_up: AtomicU64::new(0),
        }
    }

    fn wait_for_packet(&self, packet: u64) {
        let bit = 1u64 << (packet % 64);
        for _ in 0..TURNS {
            if self.come.load(Ordering::SeqCst) & bit != 0 {
                return;
            }
            thread::yield_now();
        }
        self.given_up.fetch_add(1, Ordering::SeqCst);
    }

    fn wait_for_count(&self, word: &AtomicU64, least: u64) {
        for _ in 0..TURNS {
            if word.load(Ordering::SeqCst) >= least {
                return;
            }
            thread::yield_now();
        }
        self.given_up.fetch_add(1, Ordering::SeqCst);
    }
}

impl Gate for Hold {
    fn before(&self, _thread: u32, packet: u64) {
        self.come.fetch_or(1u64 << (packet % 64), Ordering::SeqCst);
        match self.order {
            Order::Meeting(one, other) => {
                if packet == one {
                    self.wait_for_packet(other);
                } else if packet == other {
                    self.wait_for_packet(one);
                }
            }
            Order::Crossing => {
                if packet == 1 {
                    self.wait_for_count(&self.last, 1);
                }
            }
            Order::CommitsFirst => self.wait_for_count(&self.last, packet / 2 + 2),
            Order::PacketsFirst => {}
        }
    }

    fn after(&self, _thread: u32, _packet: u64) {
        self.left.fetch_add(1, Ordering::SeqCst);
    }

    fn closing(&self, generation: u64) {
        match self.order {
            Order::Crossing => self.wait_for_packet(1),
            Order::PacketsFirst => self.wait_for_count(&self.left, generation.saturating_mul(2)),
            Order::Meeting(..) | Order::CommitsFirst => {}
        }
    }

    fn closed(&self, generation: u64) {
        self.last.store(generation, Ordering::SeqCst);
    }
}

/// The packets of a key file for these sets.
fn keys_of(rt: &impl Abort, alloc: Global, schema: &Schema, text: &str) -> Result<Keys, Fail>
    ensures { IfOk result (All (All (IsFitting schema.now))) }
{
    assert!(rt; schema.len() <= 64);
    Ok(read_keys(alloc, schema, text.as_bytes())?)
}

/// The transcript of a script beside a key file.
fn run<R: Threads + Sync + Abort, G: Gate>(
    rt: &R,
    alloc: Global,
    script: &str,
    keys: &str,
    threads: u32,
    gate: &G,
) -> Result<Vec<u8>, Fail>
    requires { (0 < threads) × (threads ≤ 16) }
{
    let script = read_script(alloc, script.as_bytes())?;
    let keys = keys_of(rt, alloc, &script.schema, keys)?;
    let output = transcript(rt, alloc, script, &keys, false, threads, gate)?;
    Ok(output.text)
}

/// Runs a script beside packets in an order, and compares the transcript.
fn check_held<R: Threads + Sync + Abort>(
    rt: &R,
    alloc: Global,
    script: &str,
    keys: &str,
    order: Order,
    text: &str,
) -> Result<(), Fail> {
    let hold = Hold::new(order);
    let written = run(rt, alloc, script, keys, 1, &hold)?;
    assert!(rt; written.as_slice() == text.as_bytes());
    assert!(rt; hold.given_up.load(Ordering::SeqCst) == 0);
    Ok(())
}

const PORTS: &str = "add set ip t p { type inet_service ; flags interval ; }\n";

/// So many packets of port 55.
fn packets(alloc: Global, count: u64) -> Result<String, Fail> {
    let mut keys = String::new(alloc);
    for _ in 0..count {
        keys.push_str("ip t p 55\n")?;
    }
    Ok(keys)
}

fn count_lines(text: &[u8]) -> u64 {
    text.iter().filter(|byte| **byte == b'\n').count() as u64
}

/// Runs packets of an empty set on two threads, where two of them meet, and counts the lines.
fn check_meeting<R: Threads + Sync + Abort>(
    rt: &R,
    alloc: Global,
    keys: &str,
    one: u64,
    other: u64,
) -> Result<(), Fail> {
    let hold = Hold::new(Order::Meeting(one, other));
    let written = run(rt, alloc, PORTS, keys, 2, &hold)?;
    assert!(rt; count_lines(written.as_slice()) == 48);
    assert!(rt; hold.given_up.load(Ordering::SeqCst) == 0);
    Ok(())
}

#[test]
fn drawn_batches_held(rt: HostRuntime) -> Result<(), Fail> {
    let keys = packets(rt.alloc(), 48)?;
    for (one, other) in [(0, 16), (0, 32), (16, 32)] {
        check_meeting(&rt, rt.alloc(), keys.as_str(), one, other)?;
    }
    Ok(())
}

const ROUNDS: &str = "add set ip t p { type inet_service ; flags interval ; }\n\
                      add element ip t p { 10-20 }\n\
                      round\n\
                      add element ip t p { 30-40 }\n\
                      abort\n\
                      add element ip t p { 50-60 }\n\
                      round\n\
                      delete element ip t p { 10-20 }\n";

const PACKETS: &str = "ip t p 35\nip t p 55\nround\nip t p 55\nip t p 15\n";

/// Scripts and key files, the order of the run, and the one transcript in that order.
const HELD: [(&str, &str, Order, &str); 4] = [
    (
        "add set ip t p { type inet_service ; flags interval ; }\n\
         round\n\
         add element ip t p { 80 }\n",
        "ip t p 80\nip t p 80\n",
        Order::Crossing,
        "commit generation 1 purged 0\n\
         packet 0 thread 0 generation 0 none\n\
         packet 1 thread 0 generation 1 element 0\n",
    ),
    (
        ROUNDS,
        PACKETS,
        Order::CommitsFirst,
        "commit generation 1 purged 0\n\
         abort generation 1\n\
         commit generation 2 purged 0\n\
         packet 0 thread 0 generation 2 none\n\
         packet 1 thread 0 generation 2 element 1\n\
         commit generation 3 purged 0\n\
         packet 2 thread 0 generation 3 element 1\n\
         packet 3 thread 0 generation 3 none\n",
    ),
    (
        ROUNDS,
        PACKETS,
        Order::PacketsFirst,
        "commit generation 1 purged 0\n\
         abort generation 1\n\
         commit generation 2 purged 0\n\
         packet 0 thread 0 generation 1 none\n\
         packet 1 thread 0 generation 1 none\n\
         commit generation 3 purged 0\n\
         packet 2 thread 0 generation 2 element 1\n\
         packet 3 thread 0 generation 2 element 0\n",
    ),
    // the script has more sections than the key file
    (
        "add set ip t p { type inet_service ; flags interval ; }\ncommit\nround\ncommit\nround\ncommit\n",
        "ip t p 80\n",
        Order::CommitsFirst,
        "commit generation 1 purged 0\n\
         commit generation 2 purged 0\n\
         packet 0 thread 0 generation 2 none\n\
         commit generation 3 purged 0\n",
    ),
];

#[test]
fn packets_and_commits_that_are_held(rt: HostRuntime) -> Result<(), Fail> {
    for (script, keys, order, text) in HELD {
        check_held(&rt, rt.alloc(), script, keys, order, text)?;
    }
    Ok(())
}

// Four lines of the control, and a line for each packet.
#[test]
fn sixteen_threads(rt: HostRuntime) -> Result<(), Fail> {
    let keys = packets(rt.alloc(), 1_000)?;
    let written = run(&rt, rt.alloc(), ROUNDS, keys.as_str(), 16, &OpenGate)?;
    assert!(rt; count_lines(written.as_slice()) == 1_004);
    Ok(())
}
