//! Sections, as a gate sees them.
use packet_pool::Gate;
use script_run::{drill, dump, listing};
use set_script::read_script;
use std::alloc::Global;
use std::process::Abort;
use std::sync::atomic::{AtomicU64, Ordering};
use std::test::Fail;

/// A gate that keeps sections as digits: a 1, and then three digits for each section. These are its number,
/// the last section's number, and its count of packets. The gate also counts steps.
#[derive(Drop)]
struct Told {
    digits: AtomicU64,
    steps: AtomicU64,
}

impl Told {
    fn new() -> Told {
        Told {
            digits: AtomicU64::new(1),
            steps: AtomicU64::new(0),
        }
    }

    fn put(&self, digit: u64) {
        let before = self.digits.load(Ordering::SeqCst);
        self.digits.store(
            before.saturating_mul(10).saturating_add(digit),
            Ordering::SeqCst,
        );
    }

    fn compare(&self, rt: &impl Abort, digits: u64, steps: u64) {
        assert!(rt; self.digits.load(Ordering::SeqCst) == digits);
        assert!(rt; self.steps.load(Ordering::SeqCst) == steps);
    }
}

impl Gate for Told {
    fn section(&self, number: u64, last: u64, packets: u64) {
        self.put(number);
        self.put(last);
        self.put(packets);
    }

    fn step(&self) {
        self.steps.fetch_add(1, Ordering::SeqCst);
    }

    fn before(&self, _thread: u32, _packet: u64) {}

    fn after(&self, _thread: u32, _packet: u64) {}

    fn closing(&self, _generation: u64) {}

    fn closed(&self, _generation: u64) {}
}

const SCRIPT: &[u8] =
    b"add set ip t p { type inet_service ; }\nadd element ip t p { 80 }\nround\nround\nabort\n";

fn list(alloc: Global, told: &Told) -> Result<(), Fail> {
    let _ = listing(alloc, read_script(alloc, SCRIPT)?, false, told)?;
    Ok(())
}

fn show(alloc: Global, told: &Told) -> Result<(), Fail> {
    let _ = dump(alloc, read_script(alloc, SCRIPT)?, false, told)?;
    Ok(())
}

// Two steps in the first section, an addition and its commit, and the abort in the third.
#[test]
fn a_listing_and_a_dump_tell_each_section(rt: HostRuntime) -> Result<(), Fail> {
    let told = Told::new();
    list(rt.alloc(), &told)?;
    told.compare(&rt, 1_020_120_220, 3);
    let told = Told::new();
    show(rt.alloc(), &told)?;
    told.compare(&rt, 1_020_120_220, 3);
    Ok(())
}

// Six additions and a commit.
#[test]
fn a_drill_tells_its_steps_and_its_packets(rt: HostRuntime) -> Result<(), Fail> {
    let told = Told::new();
    let _ = drill(&rt, rt.alloc(), 1, 6, 1, &told)?;
    told.compare(&rt, 1_010_116, 7);
    Ok(())
}
