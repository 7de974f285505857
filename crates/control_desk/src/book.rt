//! A control and the log of what was submitted to it.
ghost use Rattle.std.specs.Prelude.{◌≡◌, ◌+◌, ◌<◌, ◌≤◌, ◌^◌, [], take, length, All, IfOk, OnOk, OnErr};
ghost use Rattle.set_model.specs.Runnable.{IsRunnableStep};
ghost use Rattle.gen_publish.specs.Publish.{Grown};
ghost use Rattle.control_desk.specs.Woven.{IsTransaction, HasSeen, Replays};
ghost use Rattle.control_desk.specs.Books.{IsClosed, IsApplied};

use crate::entry::{Entry, Log};
use crate::transaction::transact;
use gen_publish::Control;
use log_turns::Logged;
use set_model::{Event, Memory, Step, Steps};
use set_space::Generation;
use std::alloc::Global;
use std::marker::Model;

/// A control without open changes, and the log of the transactions submitted to it. The log replays
/// from the generations before its first entry to the committed ones.
#[derive(Drop)]
pub struct Book {
    /// The control, without open changes.
    pub control: Control,
    /// The submitted transactions, in the order in which they were done.
    pub log: Log,
    /// How many generations were committed before the log's first entry.
    pub from: u64,
}

impl Model for Book {
    ghost use Rattle.control_desk.specs.Books.{Booked, StandsByLog};

    ghost Value = { Booked };

    ghost view = { λ b. record { control = b.control; log = b.log; from = b.from } };

    ghost invariant = { λ b. StandsByLog b.control b.log b.from };
}

impl Logged for Book {
    ghost use Rattle.std.specs.Prelude.{take};

    type Entry = Entry;

    type State = Generation;

    ghost log = { λ b. b.log };

    ghost base = { λ b. take b.from b.control.committed };

    ghost number = { λ b. b.control.work.base.number };

    ghost clerk = { λ e. e.clerk };
}

impl Book {
    /// A book of a control, with an empty log. All generations so far come before it. It takes no
    /// memory.
    pub fn new(alloc: Global, control: Control) -> Book
        requires closed { IsClosed control }
        requires number { control.work.base.number < 2 ^ 63 }
        ensures control { result.control ≡ control }
        ensures log { (result.log ≡ []) × (result.from ≡ length control.committed) }
    {
        control.known();
        let from = control.number() + 1;
        Book {
            control,
            log: Log::new(alloc),
            from,
        }
    }

    /// No change is open, and the log replays from the first `from` generations to the committed ones. It does nothing.
    pub fn known(&self)
        ensures closed { IsClosed self.now.control }
        ensures from { (0 < self.now.from) × (self.now.from ≤ length self.now.control.committed) }
        ensures replays { Replays (take self.now.from self.now.control.committed) self.now.control.committed self.now.log }
        ensures last { HasSeen (take self.now.from self.now.control.committed) self.now.log self.now.control.work.base.number }
        ensures grown { Grown self.now.control.schema 0 self.now.control.committed }
    {
        self.control.known();
    }

    /// Does one transaction of the control thread `clerk`, logs it, and returns how it ended. With
    /// `keep_going` a refused change is skipped and doesn't fail the transaction.
    ///
    /// # Errors
    ///
    /// `Memory` if memory runs out. The book is as it was: nothing is logged or committed, and no
    /// change is open.
    pub fn apply(&mut self, clerk: u32, steps: &Steps, keep_going: bool) -> Result<Event, Memory>
        requires transaction { IsTransaction steps.now }
        requires fits { All (IsRunnableStep self.old.control.schema) steps.now }
        requires number { self.old.control.work.base.number < 2 ^ 63 }
        ensures ok { IfOk result (λ end. IsApplied clerk steps.now keep_going self.old self.new end) }
        ensures number { OnOk result (self.new.control.work.base.number ≤ self.old.control.work.base.number + 1) }
        ensures err { OnErr result (self.new ≡ self.old) }
        ensures closed { IsClosed self.new.control }
        ensures replays { Replays (take self.new.from self.new.control.committed) self.new.control.committed self.new.log }
    {
        self.apply_steps(clerk, steps.as_slice(), keep_going)
    }

    /// As `apply`, with the steps in a slice.
    ///
    /// # Errors
    ///
    /// `Memory` if memory runs out. The book is as it was: nothing is logged or committed, and no
    /// change is open.
    pub(crate) fn apply_steps(
        &mut self,
        clerk: u32,
        steps: &[Step],
        keep_going: bool,
    ) -> Result<Event, Memory>
        requires transaction { IsTransaction steps.now }
        requires fits { All (IsRunnableStep self.old.control.schema) steps.now }
        requires number { self.old.control.work.base.number < 2 ^ 63 }
        ensures ok { IfOk result (λ end. IsApplied clerk steps.now keep_going self.old self.new end) }
        ensures number { OnOk result (self.new.control.work.base.number ≤ self.old.control.work.base.number + 1) }
        ensures err { OnErr result (self.new ≡ self.old) }
        ensures closed { IsClosed self.new.control }
        ensures replays { Replays (take self.new.from self.new.control.committed) self.new.control.committed self.new.log }
    {
        self.control.known();
        match transact(&mut self.control, &mut self.log, clerk, steps, keep_going) {
            Ok(end) => Ok(end),
            Err(memory) => {
                self.control.known();
                self.control.abort();
                Err(memory)
            }
        }
    }
}
