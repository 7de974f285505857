//! How far a run is, as a terminal shows it.
use packet_pool::Gate;
use run_meter::{Meter, Screen};
use std::io;
use std::process::Abort;
use std::sync::atomic::{AtomicU64, Ordering};
use std::test::Fail;
use std::time::{Clock, Duration};

/// A clock that a test sets, in milliseconds.
#[derive(Drop)]
struct SetClock {
    millis: AtomicU64,
}

impl Clock for SetClock {
    fn monotonic(&self) -> io::Result<Duration> {
        Ok(Duration::from_millis(self.millis.load(Ordering::SeqCst)))
    }

    fn since_1970(&self) -> io::Result<Duration> {
        self.monotonic()
    }
}

/// A screen that counts texts.
#[derive(Drop)]
struct Counted<'a> {
    texts: &'a AtomicU64,
}

impl Screen for Counted<'_> {
    fn show(&self, _bytes: &[u8]) {
        self.texts.fetch_add(1, Ordering::SeqCst);
    }
}

/// Shows a second of commits, one each millisecond, and compares the number of texts.
fn check_second<S: Screen + Sync + Drop>(
    rt: &impl Abort,
    clock: &SetClock,
    meter: &Meter<'_, SetClock, S>,
    texts: &AtomicU64,
) {
    for millis in 1..=1000u64 {
        clock.millis.store(millis, Ordering::SeqCst);
        meter.closed(millis);
    }
    // "reading" at once, and then each tenth of a second
    assert!(rt; texts.load(Ordering::SeqCst) == 11);
    meter.finish();
    meter.finish();
    assert!(rt; texts.load(Ordering::SeqCst) == 12);
}

#[test]
fn at_most_ten_texts_a_second(rt: HostRuntime) -> Result<(), Fail> {
    let clock = SetClock {
        millis: AtomicU64::new(0),
    };
    let texts = AtomicU64::new(0);
    let meter = Meter::new(rt.alloc(), &clock, Some(Counted { texts: &texts }));
    check_second(&rt, &clock, &meter, &texts);
    Ok(())
}

/// Compares the text that a meter shows next.
fn check_text<S: Screen + Drop>(
    rt: &impl Abort,
    meter: &Meter<'_, SetClock, S>,
    wanted: &str,
) -> Result<(), Fail> {
    let text = meter.text()?;
    assert!(rt; text.as_str() == wanted);
    Ok(())
}

#[test]
fn a_text_tells_sections_and_packets(rt: HostRuntime) -> Result<(), Fail> {
    let clock = SetClock {
        millis: AtomicU64::new(0),
    };
    let texts = AtomicU64::new(0);
    let meter = Meter::new(rt.alloc(), &clock, Some(Counted { texts: &texts }));
    meter.section(0, 2, 0);
    check_text(&rt, &meter, "\r\x1b[Kpipapo: section 1 of 3")?;
    meter.section(1, 2, 500);
    meter.after(0, 7);
    check_text(
        &rt,
        &meter,
        "\r\x1b[Kpipapo: section 2 of 3, packet 1 of 500",
    )
}
