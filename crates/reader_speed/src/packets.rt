//! Packets per second of a section.
ghost use Rattle.std.specs.Prelude.{◌<◌, ◌≤◌};
ghost use Rattle.reader_speed.specs.Ready.{AreReadersReady};

use crate::course::Course;
use crate::fault::Fault;
use crate::line::Line;
use crate::workload::Workload;
use packet_pool::Gate;
use set_model::Steps;
use std::alloc::Global;
use std::rt::Runtime;
use std::sync::atomic::{AtomicU64, Ordering};
use std::thread::Threads;
use std::time::{Clock, Instant};

const PACKETS: u64 = 1_000_000;

const RUNS: u32 = 9;

/// A gate that records the time, in nanoseconds after `start`.
#[derive(Drop)]
struct Stopwatch<'a, C: Clock> {
    clock: &'a C,
    start: Instant,
    /// When a thread enters for packet 0.
    begun: AtomicU64,
    /// When a thread has left for the last packet.
    ended: AtomicU64,
}

impl<C: Clock> Stopwatch<'_, C> {
    #[cold]
    fn time(&self) -> u64 {
        match self.start.elapsed(self.clock) {
            Ok(time) => u64::try_from(time.as_nanos()).unwrap_or(0),
            Err(_) => 0,
        }
    }

    /// The nanoseconds up to now, and those of the packets.
    fn times(&self) -> Times {
        let whole = self.time();
        let (begun, ended) = (
            self.begun.load(Ordering::SeqCst),
            self.ended.load(Ordering::SeqCst),
        );
        Times {
            whole,
            packets: ended.saturating_sub(begun),
        }
    }
}

impl<C: Clock + Sync> Gate for Stopwatch<'_, C> {
    #[inline]
    fn before(&self, _thread: u32, packet: u64) {
        if packet == 0 {
            self.begun.store(self.time(), Ordering::SeqCst);
        }
    }

    #[inline]
    fn after(&self, _thread: u32, packet: u64) {
        if packet == PACKETS - 1 {
            self.ended.store(self.time(), Ordering::SeqCst);
        }
    }

    fn closing(&self, _generation: u64) {}

    fn closed(&self, _generation: u64) {}
}

/// The nanoseconds of a section, and of its packets alone: from the first enter to the last leave.
#[derive(Clone, Copy)]
struct Times {
    whole: u64,
    packets: u64,
}

/// Prints how many packets per second so many threads answer.
pub(crate) fn tell<R: Runtime<A = Global> + Threads + Sync>(
    rt: &R,
    alloc: Global,
    workload: &Workload,
    threads: u32,
) -> Result<(), Fault>
    requires { (0 < threads) × (threads ≤ 16) }
{
    let best = best_of_runs(rt, alloc, workload, threads)?;
    let threads = Line {
        who: "threads",
        threads,
    };
    threads.print(rt, "packets", a_second(best.packets), "a second")?;
    threads.print(
        rt,
        "packets",
        a_second(best.whole),
        "a second, with the threads' start and lines in order",
    )
}

/// The least times of several runs.
fn best_of_runs<R: Clock + Threads + Sync>(
    rt: &R,
    alloc: Global,
    workload: &Workload,
    threads: u32,
) -> Result<Times, Fault>
    requires { (0 < threads) × (threads ≤ 16) }
{
    let mut best = Times {
        whole: u64::MAX,
        packets: u64::MAX,
    };
    for _ in 0..RUNS {
        let times = section_times(rt, alloc, workload, threads)?;
        best.whole = best.whole.min(times.whole);
        best.packets = best.packets.min(times.packets);
    }
    Ok(best)
}

/// How many packets per second it is if all take these nanoseconds.
fn a_second(time: u64) -> u128 {
    u128::from(PACKETS * 1_000_000_000 / time.max(1))
}

/// One section of all packets, in a course of its own.
fn section_times<R: Clock + Threads + Sync>(
    rt: &R,
    alloc: Global,
    workload: &Workload,
    threads: u32,
) -> Result<Times, Fault>
    requires { (0 < threads) × (threads ≤ 16) }
{
    let mut course = Course::new(rt, alloc, workload, threads, PACKETS as usize)?;
    answer_all(rt, alloc, &mut course)
}

/// One section of a course's packets, with no step beside them.
fn answer_all<R: Clock + Threads + Sync>(
    rt: &R,
    alloc: Global,
    course: &mut Course,
) -> Result<Times, Fault>
    requires { AreReadersReady course.old.control course.old.readers.items course.old.packets }
{
    let watch = Stopwatch {
        clock: rt,
        start: Instant::now(rt)?,
        begun: AtomicU64::new(0),
        ended: AtomicU64::new(0),
    };
    course.section(rt, alloc, &Steps::new(alloc), &watch)?;
    Ok(watch.times())
}
