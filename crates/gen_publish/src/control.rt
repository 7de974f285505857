//! The control, which changes sets and commits generations. It waits for no reader.
ghost use Rattle.std.specs.Prelude.{◌≡◌, ◌+◌, ◌<◌, ◌≤◌, ◌^◌, ◌↔◌, length, IsTrue, IfOk, OnErr, Err, Ok, None};
ghost use Rattle.std.specs.Arc.{arc_value};
ghost use Rattle.history_laws.specs.Histories.{StartsWith, EndsWith};
ghost use Rattle.set_model.specs.SetState.{add, removed};
ghost use Rattle.pipapo_image.specs.Image.Insert.{IsAnswer};
ghost use Rattle.pipapo_image.specs.Image.Remove.{IsRemoval};
ghost use Rattle.set_space.specs.Answers.{IsCreation, IsDestruction, IsFlush};
ghost use Rattle.set_space.specs.Open.{opened, FitsSet, Lacks, IsChange};
ghost use Rattle.gen_publish.specs.Accepted.{ShowsElement};
ghost use Rattle.gen_publish.specs.Publish.{IsCommit, IsSteered, Grown, kinds_of, declared_kinds};

use crate::berth::{Berth, next_berths};
use crate::note::Note;
use crate::receipt::Receipt;
use gen_slots::{Steps, Writer};
use pipapo_image::{Added, ChangeError};
use set_model::{Memory, NewElement, Parts, Schema, Why, parts_fit};
use set_space::{Generation, Work};
use std::alloc::Global;
use std::marker::{Brand, Model};
use std::sync::Arc;
use std::sync::ledger::{Blank, Ledger};

/// The committed generations, and the open sets, which began as the last generation's. Only a commit
/// changes what readers may find.
#[derive(Drop)]
pub struct Control {
    alloc: Global,
    writer: Writer<Berth>,
    work: Work,
    schema: Arc<Schema, Global>,
    readers: u32,
}

impl Model for Control {
    ghost use Rattle.std.specs.Prelude.{◌≡◌, ◌<◌};
    ghost use Rattle.std.specs.Arc.{arc_value};
    ghost use Rattle.gen_publish.specs.Publish.{Steering, IsSteered};

    ghost Value = { Steering };

    ghost view = { λ c. record { of = c.writer.of; schema = arc_value c.schema; readers = c.writer.readers; committed = c.writer.made; work = c.work } };

    ghost invariant = { λ c. IsSteered (arc_value c.schema) c.writer.made c.work × (c.readers ≡ c.writer.readers) × (0 < c.readers) };
}

/// A commit that counts its steps by this counter.
fn commit_with<L: Ledger>(control: &mut Control, now: u64, blank: Blank) -> Result<Receipt, Memory>
    requires number { control.old.work.base.number < 2 ^ 63 }
    requires blank { (blank.name ≡ L.name) × (blank.parts ≡ L.parts) × (blank.parts ≡ 1) }
    ensures ok { IfOk result (IsCommit control.old now control.new) }
    ensures err { OnErr result (control.new ≡ control.old) }
{
    let (book, share) = blank.open::<L>();
    control.commit_counted(now, &mut Steps::new(book, share))
}

impl Control {
    pub(crate) fn seated(
        alloc: Global,
        writer: Writer<Berth>,
        work: Work,
        schema: Arc<Schema, Global>,
        readers: u32,
    ) -> Control
        requires steered { IsSteered (arc_value schema) writer.made work }
        requires count { (readers ≡ writer.readers) × (0 < readers) }
        ensures { result ≡ record { of = writer.of; schema = arc_value schema; readers = writer.readers; committed = writer.made; work = work } }
    {
        Control {
            alloc,
            writer,
            work,
            schema,
            readers,
        }
    }

    /// The declared sets.
    pub fn schema(&self) -> &Schema
        ensures { result.now ≡ self.now.schema }
    {
        &self.schema
    }

    /// The last generation.
    pub fn generation(&self) -> &Generation
        ensures { result.now ≡ self.now.work.base }
    {
        self.work.base()
    }

    /// The last generation's number.
    pub fn number(&self) -> u64
        ensures { result ≡ self.now.work.base.number }
    {
        self.work.base().number
    }

    /// The open work is based on the last committed generation. The generations are numbered from 0,
    /// and all sets have the declared kinds. It does nothing.
    pub fn known(&self)
        ensures last { EndsWith self.now.committed self.now.work.base }
        ensures grown { Grown self.now.schema 0 self.now.committed }
        ensures open_sets { kinds_of self.now.work.sets ≡ declared_kinds self.now.schema }
    {
        let _ = &self.readers;
    }

    /// Whether `insert` and `create` accept these intervals: the set is declared, and each field has
    /// one interval of its kind.
    pub fn fits(&self, set: u32, parts: &Parts) -> bool
        ensures { IsTrue result ↔ ((set < length self.now.work.sets) × FitsSet self.now.work set parts.now) }
    {
        let place = u64::from(set);
        place < self.schema.len() && parts_fit(&self.schema.at(place).kinds, parts)
    }

    /// Inserts into an open set. `now` is in milliseconds. If a live element has the same intervals, it
    /// stays, and takes the new expiry if there is one.
    ///
    /// After that a lookup of the start key in the open set finds the element, if its expiry is after
    /// `now`.
    ///
    /// # Errors
    ///
    /// The first of these that applies; each leaves the control as it was.
    ///
    /// - `Overlap` if a live element holds the start key and has other intervals, or else holds the end key.
    ///   In a disjoint set also if a live element shares any key.
    /// - `Full` if the set has as many elements as it may have.
    /// - `RulesFull` with the first field that would have too many rules.
    /// - `Memory` if memory runs out.
    pub fn insert(&mut self, set: u32, element: &NewElement, now: u64) -> Result<Added, ChangeError>
        requires set { set < length self.old.work.sets }
        requires fits { FitsSet self.old.work set element.now.parts }
        ensures change { IsChange (λ s t. IsAnswer (add s element.now now) result s t) self.old.work set self.new.work }
        ensures shown { IfOk result (ShowsElement self.new.work set element.now now) }
        ensures others { self.new ≡ record self.old { work = self.new.work } }
        ensures refused { OnErr result (self.new ≡ self.old) }
    {
        self.work.insert(set, element, now)
    }

    /// Inserts into an open set if no live element has the same intervals, and returns the new id.
    ///
    /// # Errors
    ///
    /// `Exists` if a live element has them, even if a new expiry is given. Then the errors of an
    /// insertion. Each leaves the control as it was.
    pub fn create(&mut self, set: u32, element: &NewElement, now: u64) -> Result<u64, ChangeError>
        requires set { set < length self.old.work.sets }
        requires fits { FitsSet self.old.work set element.now.parts }
        ensures change { IsChange (λ s t. IsCreation (add s element.now now) result s t) self.old.work set self.new.work }
        ensures others { self.new ≡ record self.old { work = self.new.work } }
        ensures refused { OnErr result (self.new ≡ self.old) }
    {
        self.work.create(set, element, now)
    }

    /// Takes the first live element of exactly these intervals out of an open set, and returns its id.
    ///
    /// # Errors
    ///
    /// `Missing` exactly if there is no such element, even if no memory is left. `Memory` if memory
    /// runs out. Each leaves the control as it was.
    pub fn delete(&mut self, set: u32, parts: &Parts, now: u64) -> Result<u64, ChangeError>
        requires { set < length self.old.work.sets }
        ensures change { IsChange (λ s t. IsRemoval (removed s parts.now now) result s t) self.old.work set self.new.work }
        ensures missing { Lacks self.old.work set parts.now now → result ≡ Err (ChangeError.Refused Why.Missing) }
        ensures others { self.new ≡ record self.old { work = self.new.work } }
        ensures refused { OnErr result (self.new ≡ self.old) }
    {
        self.work.delete(set, parts, now)
    }

    /// Does the same as `delete`, but returns `None` if there is no such element. This takes no memory.
    ///
    /// # Errors
    ///
    /// `Memory` if memory runs out. The control is as it was.
    pub fn destroy(&mut self, set: u32, parts: &Parts, now: u64) -> Result<Option<u64>, Memory>
        requires { set < length self.old.work.sets }
        ensures change { IsChange (λ s t. IsDestruction (removed s parts.now now) result s t) self.old.work set self.new.work }
        ensures missing { Lacks self.old.work set parts.now now → result ≡ Ok None }
        ensures others { self.new ≡ record self.old { work = self.new.work } }
        ensures refused { OnErr result (self.new ≡ self.old) }
    {
        self.work.destroy(set, parts, now)
    }

    /// Takes all elements out of an open set, and returns how many there were. Ids go on.
    ///
    /// # Errors
    ///
    /// `Memory` if memory runs out. The control is as it was.
    pub fn flush(&mut self, set: u32) -> Result<u64, Memory>
        requires { set < length self.old.work.sets }
        ensures change { IsChange (λ s t. IsFlush result s t) self.old.work set self.new.work }
        ensures others { self.new ≡ record self.old { work = self.new.work } }
        ensures refused { OnErr result (self.new ≡ self.old) }
    {
        self.work.flush(set)
    }

    /// Commits the open sets as the next generation, without the elements that are expired at `now`, in
    /// milliseconds. It waits for nobody, and takes all its memory before its first change.
    ///
    /// # Errors
    ///
    /// `Memory` if memory runs out. The control is as it was.
    pub fn commit(&mut self, now: u64) -> Result<Receipt, Memory>
        requires { self.old.work.base.number < 2 ^ 63 }
        ensures ok { IfOk result (IsCommit self.old now self.new) }
        ensures err { OnErr result (self.new ≡ self.old) }
    {
        commit_with::<Brand>(self, now, Blank::new(1))
    }

    /// Does the same as `commit`, and counts a step for each slot that it looks at to find a free one.
    /// These are at most one more than there are readers.
    ///
    /// # Errors
    ///
    /// `Memory` if memory runs out. The control is as it was.
    pub fn commit_counted<L: Ledger>(
        &mut self,
        now: u64,
        steps: &mut Steps<L>,
    ) -> Result<Receipt, Memory>
        requires { self.old.work.base.number < 2 ^ 63 }
        ensures ok { IfOk result (IsCommit self.old now self.new) }
        ensures err { OnErr result (self.new ≡ self.old) }
        ensures cost { steps.new ≤ steps.old + self.old.readers + 1 }
    {
        let (sealed, purged) = self.work.seal(now)?;
        let mut berths = next_berths(self.alloc, &sealed, self.readers)?;
        let generation = sealed.number;
        self.writer.publish(&mut berths, steps);
        self.work.adopt(sealed);
        // The berths are those of an older generation now, and are dropped here and by no reader.
        Ok(Receipt { generation, purged })
    }

    /// Makes all open sets those of the last generation again. It takes no memory.
    #[tactic(auto, using(crate::proofs::Growing::steered_abort))]
    pub fn abort(&mut self)
        ensures { self.new ≡ record self.old { work = opened self.old.work.base } }
    {
        self.work.abort();
    }

    /// A note of what was committed, for a reader. It takes no memory.
    pub fn note(&mut self) -> Note
        ensures note { (result.of ≡ self.old.of) × (result.list ≡ self.old.committed) }
        ensures same { self.new ≡ self.old }
    {
        Note {
            inner: self.writer.note(),
        }
    }

    /// Takes a note of this start. Its list is a front of the committed generations. It takes no
    /// memory.
    pub fn hear(&mut self, note: Note)
        requires { note.of ≡ self.old.of }
        ensures same { self.new ≡ self.old }
        ensures begins { StartsWith self.new.committed note.list }
    {
        let Note { inner } = note;
        self.writer.hear(inner);
    }
}
