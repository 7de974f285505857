//! A control thread's seat at a desk.
ghost use Rattle.std.specs.Prelude.{◌≡◌, ◌+◌, ◌<◌, ◌≤◌, ◌^◌, ℕ, [], take, All, Err, IfOk, OnOk, OnErr};
ghost use Rattle.std.specs.Arc.{arc_value};
ghost use Rattle.gen_publish.specs.Publish.{Grown};
ghost use Rattle.log_turns.specs.LogRule.{IsSized};
ghost use Rattle.log_turns.specs.declared.Role.TheVariants.{Clerk as Thread};
ghost use Rattle.set_model.specs.Runnable.{IsRunnableStep};
ghost use Rattle.control_desk.specs.declared.clerk.DeskError.TheVariants.{Stale};
ghost use Rattle.control_desk.specs.Books.{IsApplied};
ghost use Rattle.control_desk.specs.Woven.{IsTransaction, HasSeen};
ghost use Rattle.control_desk.specs.Turns.{HadTurn, IsLogged, IsUnlogged, IsStale};

use crate::book::Book;
use log_turns::board::{Board, Place};
use log_turns::turn::{end_turn, take_turn};
use set_model::{Event, Memory, Step, Steps};
use std::alloc::Global;
use std::marker::Model;
use std::sync::{Arc, Wait};

/// Why a transaction wasn't logged.
#[derive(Clone, Copy, Debug, PartialEq, Eq)]
pub enum DeskError {
    /// A generation was committed that the control thread hadn't seen. `newer` is the last generation's
    /// number.
    Stale { newer: u64 },
    /// Memory ran out.
    Memory,
}

/// One of several control threads. It submits transactions to the control of its desk.
#[derive(Drop)]
pub struct Clerk {
    pub(crate) board: Arc<Board<Book>, Global>,
    pub(crate) place: Place<Book>,
    pub(crate) number: u32,
    // The number of the last generation that it has seen.
    newest: u64,
}

impl Model for Clerk {
    ghost use Rattle.std.specs.Prelude.{◌≡◌, []};
    ghost use Rattle.std.specs.Arc.{arc_value};
    ghost use Rattle.gen_publish.specs.Publish.{Grown};
    ghost use Rattle.log_turns.specs.LogRule.{IsSized};
    ghost use Rattle.log_turns.specs.declared.Role.TheVariants.{Clerk as Thread};
    ghost use Rattle.control_desk.specs.Woven.{HasSeen};
    ghost use Rattle.control_desk.specs.Turns.{Seated};

    ghost Value = { Seated };

    ghost view = { λ c. record { of = c.place.table_id; schema = (arc_value c.board).shared.key.first.value.control.schema; threads = c.place.me.0.threads; number = c.number; base = c.place.me.0.base; seen = c.place.me.0.seen; left = c.place.me.0.left } };

    ghost invariant = { λ c. (c.place.table_id ≡ (arc_value c.board).shared.table_id) × IsSized c.place.table_id × (c.place.me.0.role ≡ Thread c.number) × (c.place.me.0.stage ≡ 1) × (c.place.me.1 ≡ []) × HasSeen c.place.me.0.base c.place.me.0.seen c.newest × Grown (arc_value c.board).shared.key.first.value.control.schema 0 c.place.me.0.base };
}

/// What a control thread does at its turn: if it has seen the last generation, it applies its
/// transaction.
fn do_turn(
    book: &mut Book,
    clerk: u32,
    newest: u64,
    steps: &[Step],
    keep_going: bool,
) -> Result<Event, DeskError>
    requires transaction { IsTransaction steps.now }
    requires fits { All (IsRunnableStep book.old.control.schema) steps.now }
    requires number { book.old.control.work.base.number < 2 ^ 63 }
    ensures ok { IfOk result (λ end. IsApplied clerk steps.now keep_going book.old book.new end × (book.old.control.work.base.number ≤ newest)) }
    ensures number { OnOk result (book.new.control.work.base.number ≤ book.old.control.work.base.number + 1) }
    ensures err { OnErr result (book.new ≡ book.old) }
    ensures stale { (newer : ℕ) → result ≡ Err (Stale newer) → (newer ≡ book.old.control.work.base.number) × (newest < newer) }
{
    let newer = book.control.number();
    if newest < newer {
        return Err(DeskError::Stale { newer });
    }
    match book.apply_steps(clerk, steps, keep_going) {
        Ok(end) => Ok(end),
        Err(Memory) => Err(DeskError::Memory),
    }
}

impl Clerk {
    pub(crate) fn seated(
        board: Arc<Board<Book>, Global>,
        place: Place<Book>,
        number: u32,
        newest: u64,
    ) -> Clerk
        requires table { (place.table_id ≡ (arc_value board).shared.table_id) × IsSized place.table_id }
        requires seat { (place.me.0.role ≡ Thread number) × (place.me.0.stage ≡ 1) × (place.me.1 ≡ []) }
        requires newest { HasSeen place.me.0.base place.me.0.seen newest }
        requires grown { Grown (arc_value board).shared.key.first.value.control.schema 0 place.me.0.base }
        ensures { result ≡ record { of = place.table_id; schema = (arc_value board).shared.key.first.value.control.schema; threads = place.me.0.threads; number = number; base = place.me.0.base; seen = place.me.0.seen; left = place.me.0.left } }
    {
        Clerk {
            board,
            place,
            number,
            newest,
        }
    }

    /// Its number, from 1.
    pub fn number(&self) -> u32
        ensures { result ≡ self.now.number }
    {
        self.number
    }

    /// Waits for this control thread's turn, submits a transaction, and returns how it ended. With
    /// `keep_going` a refused change is skipped and doesn't fail the transaction. The control thread
    /// has then seen all that was logged.
    ///
    /// # Errors
    ///
    /// `Stale` with the last generation's number, if the control thread hadn't seen that generation.
    /// Else `Memory` if memory runs out. After an error nothing is logged or committed, and the number
    /// of its transactions that are left stays.
    pub fn submit<R: Wait>(
        &mut self,
        rt: &R,
        steps: &Steps,
        keep_going: bool,
    ) -> Result<Event, DeskError>
        requires transaction { IsTransaction steps.now }
        requires fits { All (IsRunnableStep self.old.schema) steps.now }
        requires left { 0 < self.old.left }
        ensures turn { HadTurn self.old self.new }
        ensures ok { IfOk result (λ end. IsLogged steps.now keep_going self.old self.new end) }
        ensures none { OnErr result (IsUnlogged self.old self.new) }
        ensures stale { (newer : ℕ) → result ≡ Err (Stale newer) → IsStale newer self.old self.new }
    {
        self.submit_steps(rt, steps.as_slice(), keep_going)
    }

    /// As `submit`, with the steps in a slice.
    ///
    /// # Errors
    ///
    /// As of `submit`.
    pub(crate) fn submit_steps<R: Wait>(
        &mut self,
        rt: &R,
        steps: &[Step],
        keep_going: bool,
    ) -> Result<Event, DeskError>
        requires transaction { IsTransaction steps.now }
        requires fits { All (IsRunnableStep self.old.schema) steps.now }
        requires left { 0 < self.old.left }
        ensures turn { HadTurn self.old self.new }
        ensures ok { IfOk result (λ end. IsLogged steps.now keep_going self.old self.new end) }
        ensures none { OnErr result (IsUnlogged self.old self.new) }
        ensures stale { (newer : ℕ) → result ≡ Err (Stale newer) → IsStale newer self.old self.new }
    {
        let top = &self.board.shared;
        let (ticket, mut book) = take_turn(rt, top, &mut self.place);
        book.known();
        let answer = do_turn(&mut book, self.number, self.newest, steps, keep_going);
        book.known();
        let newest = book.control.number();
        end_turn(top, &mut self.place, ticket, book);
        self.newest = newest;
        answer
    }
}
