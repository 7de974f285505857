//! How far a run is, shown to a person at a terminal.
ghost use Rattle.std.specs.Prelude.{◌≡◌, List, ℕ, Option};

use packet_pool::Gate;
use pip_base::{Failed, Notes, Sink};
use std::alloc::{AllocError, Global};
use std::io::{Stderr, Write};
use std::sync::atomic::{AtomicU64, Ordering};
use std::time::{Clock, Instant};

/// The least time between two texts, in milliseconds.
const PAUSE: u64 = 100;

/// How many packets are answered between two looks at the clock.
const STEP: u64 = 256;

/// The screen that shows a meter's line.
pub trait Screen {
    /// Shows bytes. If that fails they are lost.
    fn show(&self, bytes: &[u8]);
}

impl Screen for Stderr {
    fn show(&self, bytes: &[u8]) {
        let mut err = *self;
        let _ = err.write_all(bytes);
    }
}

/// A gate that shows how far a run is, at most ten times a second, each text over the one before.
#[derive(Drop)]
pub struct Meter<'a, C: Clock, S: Screen + Drop> {
    alloc: Global,
    clock: &'a C,
    /// The screen of the texts; none if nobody sees them.
    screen: Option<S>,
    /// When the meter was made, if there is a clock.
    began: Option<Instant>,
    /// When the last text was shown, in milliseconds after `began`.
    told: AtomicU64,
    /// 1 if a text is on the screen, and 0 otherwise.
    stands: AtomicU64,
    /// The section's number and the last section's number, both from 0 on.
    section: AtomicU64,
    last: AtomicU64,
    /// How many packets the section has, and how many of them are answered.
    packets: AtomicU64,
    answered: AtomicU64,
}

impl<'a, C: Clock, S: Screen + Drop> Meter<'a, C, S> {
    /// A meter that shows that files are read. Without a screen it does nothing.
    pub fn new(alloc: Global, clock: &'a C, screen: Option<S>) -> Meter<'a, C, S> {
        if let Some(screen) = &screen {
            screen.show(b"pipapo: reading");
        }
        Meter {
            alloc,
            clock,
            screen,
            began: Instant::now(clock).ok(),
            told: AtomicU64::new(0),
            stands: AtomicU64::new(1),
            section: AtomicU64::new(0),
            last: AtomicU64::new(0),
            packets: AtomicU64::new(0),
            answered: AtomicU64::new(0),
        }
    }

    /// How many milliseconds have passed, if there is a clock.
    fn passed(&self) -> Option<u64> {
        let passed = self.began?.elapsed(self.clock).ok()?;
        u64::try_from(passed.as_millis()).ok()
    }

    /// Whether the last text is old enough for another one, and no other thread is going to show one.
    fn is_due(&self) -> bool {
        let Some(passed) = self.passed() else {
            return false;
        };
        let told = self.told.load(Ordering::SeqCst);
        passed >= told.saturating_add(PAUSE)
            && self
                .told
                .compare_exchange(told, passed, Ordering::SeqCst, Ordering::SeqCst)
                .is_ok()
    }

    /// The text of how far the run is, which overwrites the text on the screen. Sections count from 1.
    ///
    /// # Errors
    ///
    /// `AllocError` if memory runs out.
    pub fn text(&self) -> Result<String, AllocError> {
        let section = self.section.load(Ordering::SeqCst).saturating_add(1);
        let last = self.last.load(Ordering::SeqCst).saturating_add(1);
        let packets = self.packets.load(Ordering::SeqCst);
        if packets == 0 {
            return format!(in self.alloc; "\r\x1b[Kpipapo: section {section} of {last}");
        }
        let answered = self.answered.load(Ordering::SeqCst);
        format!(in self.alloc;
            "\r\x1b[Kpipapo: section {section} of {last}, packet {answered} of {packets}"
        )
    }

    /// Shows how far the run is, if that is due and memory suffices.
    #[cold]
    fn tell(&self, screen: &S) {
        if !self.is_due() {
            return;
        }
        if let Ok(text) = self.text() {
            screen.show(text.as_bytes());
            self.stands.store(1, Ordering::SeqCst);
        }
    }

    /// Clears the text on the screen.
    pub fn finish(&self) {
        if let Some(screen) = &self.screen {
            if self.stands.swap(0, Ordering::SeqCst) == 1 {
                screen.show(b"\r\x1b[K");
            }
        }
    }
}

impl<C: Clock + Sync, S: Screen + Sync + Drop> Gate for Meter<'_, C, S> {
    fn section(&self, number: u64, last: u64, packets: u64) {
        if let Some(screen) = &self.screen {
            self.section.store(number, Ordering::SeqCst);
            self.last.store(last, Ordering::SeqCst);
            self.packets.store(packets, Ordering::SeqCst);
            self.answered.store(0, Ordering::SeqCst);
            self.tell(screen);
        }
    }

    fn step(&self) {
        if let Some(screen) = &self.screen {
            self.tell(screen);
        }
    }

    #[inline]
    fn before(&self, _thread: u32, _packet: u64) {}

    #[inline]
    fn after(&self, _thread: u32, _packet: u64) {
        if let Some(screen) = &self.screen {
            if self.answered.fetch_add(1, Ordering::SeqCst) % STEP == 0 {
                self.tell(screen);
            }
        }
    }

    fn closing(&self, _generation: u64) {}

    fn closed(&self, _generation: u64) {
        if let Some(screen) = &self.screen {
            self.tell(screen);
        }
    }
}

/// A writer that shares a terminal with a meter. It clears the meter's text before its first byte.
#[derive(Drop)]
pub struct InPlace<'a, 'b, T: Drop, C: Clock, S: Screen + Drop> {
    inner: T,
    meter: &'a Meter<'b, C, S>,
}

impl<'a, 'b, T: Drop, C: Clock, S: Screen + Drop> InPlace<'a, 'b, T, C, S> {
    /// Passes bytes on to `inner`, over the meter's text.
    pub fn new(inner: T, meter: &'a Meter<'b, C, S>) -> InPlace<'a, 'b, T, C, S> {
        InPlace { inner, meter }
    }

    /// What takes the bytes.
    pub fn inner(&self) -> &T {
        &self.inner
    }
}

impl<T: Sink + Drop, C: Clock, S: Screen + Drop> Sink for InPlace<'_, '_, T, C, S> {
    ghost taken = { λ s. T.taken s.inner };

    ghost faults = { λ s. T.faults s.inner };

    fn write(&mut self, piece: &[u8]) -> Result<usize, Failed> {
        self.meter.finish();
        self.inner.write(piece)
    }
}

impl<T: Notes + Drop, C: Clock, S: Screen + Drop> Notes for InPlace<'_, '_, T, C, S> {
    ghost told = { λ s. T.told s.inner };

    fn tell(&mut self, text: &[u8]) {
        self.meter.finish();
        self.inner.tell(text);
    }
}
