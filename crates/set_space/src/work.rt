ghost use Rattle.std.specs.Prelude.{◌≡◌, ◌<◌, ◌≤◌, ◌^◌, ◌↔◌, IsTrue, length, map, IfOk, OnErr};
ghost use Rattle.std.specs.Arc.{arc_value};
ghost use Rattle.set_model.specs.SetState.{add, removed, purged, cleared};
ghost use Rattle.set_model.specs.Control.{expired_count};
ghost use Rattle.pipapo_image.specs.Image.Insert.{IsAnswer};
ghost use Rattle.pipapo_image.specs.Image.Remove.{IsRemoval};
ghost use Rattle.set_space.specs.Open.{opened, sealed, FitsSet, Lacks, IsEmptyAt, IsChange};
ghost use Rattle.set_space.specs.Answers.{IsCreation, IsDestruction, IsFlush};
ghost use Rattle.set_space.specs.OpenSets.{open_states, IsSealed};

use crate::generation::Generation;
use crate::kept_set::KeptSet;
use crate::open_set::OpenSet;
use crate::sets::Sets;
use pipapo_image::{Added, ChangeError, Scratch};
use set_model::{Memory, NewElement, Parts, Why};
use std::alloc::Global;
use std::marker::Model;
use std::sync::Arc;

/// The open transaction: a base generation, and the sets with the open changes. It keeps only the
/// changed sets; the others are those of the base. Contracts see the base and the states of all
/// sets.
#[derive(Drop)]
pub struct Work {
    alloc: Global,
    base: Arc<Generation, Global>,
    sets: Vec<OpenSet>,
    scratch: Scratch,
}

impl Model for Work {
    ghost use Rattle.std.specs.Arc.{arc_value};
    ghost use Rattle.std.specs.Prelude.{◌≡◌, ◌≤◌, ◌^◌, length};
    ghost use Rattle.set_space.specs.Open.{Open};

    ghost Value = { Open };

    ghost use Rattle.set_space.specs.OpenSets.{open_states};

    ghost view = { λ a. record { base = arc_value a.base; sets = open_states a.sets.items (arc_value a.base).sets } };

    ghost invariant = { λ a. (length a.sets.items ≡ length (arc_value a.base).sets) × (length a.sets.items ≤ 2 ^ 32) };
}

/// The sets of a generation, unchanged.
#[tactic(auto, using(crate::proofs::SetsLaws::unchanged_states))]
fn unchanged(alloc: Global, base: &Generation) -> Result<Vec<OpenSet>, Memory>
    ensures long { IfOk result (λ sets. length sets.items ≡ length base.now.sets) }
    ensures same { IfOk result (λ sets. open_states sets.items base.now.sets ≡ base.now.sets) }
{
    let mut sets = Vec::new(alloc);
    'sets: for i in 0..base.len() {
        sets.push(OpenSet::Unchanged)?;
    }
    Ok(sets)
}

/// Takes all changes back.
#[tactic(auto, using(crate::proofs::SetsLaws::unchanged_states))]
fn undo(sets: &mut [OpenSet], base: &Generation)
    requires { length sets.old ≡ length base.now.sets }
    ensures long { length sets.new ≡ length base.now.sets }
    ensures same { open_states sets.new base.now.sets ≡ base.now.sets }
{
    'sets: for i in 0..sets.len() {
        sets[i] = OpenSet::Unchanged;
    }
}

/// The set at a place as it is published at `now`, and how many of its elements are expired then.
fn seal_at(
    alloc: Global,
    sets: &mut [OpenSet],
    base: &Generation,
    set: u32,
    now: u64,
) -> Result<(Arc<KeptSet, Global>, u64), Memory>
    requires long { length sets.old ≡ length base.now.sets }
    requires within { set < length sets.old }
    ensures long { length sets.new ≡ length sets.old }
    ensures same { open_states sets.new base.now.sets ≡ open_states sets.old base.now.sets }
    ensures sealed { IfOk result (λ r. IsSealed (open_states sets.old base.now.sets) set now (arc_value r.0) r.1) }
{
    let shared = base.shared(set);
    sets[set as usize].seal(alloc, shared, now)
}

/// The sets as they are published at `now`, and how many elements of all of them are expired then.
/// The open sets are unchanged.
fn seal_all(
    alloc: Global,
    sets: &mut [OpenSet],
    base: &Generation,
    now: u64,
) -> Result<(Sets, u64), Memory>
    requires long { length sets.old ≡ length base.now.sets }
    requires few { length sets.old ≤ 2 ^ 32 }
    ensures long { length sets.new ≡ length sets.old }
    ensures same { open_states sets.new base.now.sets ≡ open_states sets.old base.now.sets }
    ensures sealed { IfOk result (λ r. (r.0 ≡ map (λ s. purged s now) (open_states sets.old base.now.sets)) × (r.1 ≡ expired_count (open_states sets.old base.now.sets) now)) }
{
    let mut published = Sets::new(alloc);
    let mut expired = 0u64;
    'sets: for i in 0..sets.len() {
        let (set, count) = seal_at(alloc, sets, base, i as u32, now)?;
        expired += count;
        published.push(set)?;
    }
    Ok((published, expired))
}

impl Work {
    /// A work on a generation of at most 2^32 sets, with no open change.
    ///
    /// # Errors
    ///
    /// `Memory` if memory runs out.
    pub fn new(alloc: Global, base: Arc<Generation, Global>) -> Result<Work, Memory>
        requires few { length (arc_value base).sets ≤ 2 ^ 32 }
        ensures { IfOk result (λ work. work ≡ opened (arc_value base)) }
    {
        let sets = unchanged(alloc, &base)?;
        Ok(Work {
            alloc,
            base,
            sets,
            scratch: Scratch::new(alloc)?,
        })
    }

    /// The base generation.
    pub fn base(&self) -> &Generation
        ensures { result.now ≡ self.now.base }
    {
        &self.base
    }

    /// How many sets there are.
    pub fn len(&self) -> u64
        ensures { result ≡ length self.now.sets }
    {
        self.base.len()
    }

    /// Whether `insert` and `create` accept these intervals: one interval per field, of the field's
    /// kind.
    pub fn fits(&self, set: u32, parts: &Parts) -> bool
        requires { set < length self.now.sets }
        ensures { IsTrue result ↔ FitsSet self.now set parts.now }
    {
        let base = self.base.set(set);
        self.sets[set as usize].fits(base, parts)
    }

    /// Inserts into a set. `now` is in milliseconds.
    ///
    /// # Errors
    ///
    /// As of an insertion into the set's image. Each leaves the work as it was.
    pub fn insert(&mut self, set: u32, element: &NewElement, now: u64) -> Result<Added, ChangeError>
        requires set { set < length self.old.sets }
        requires fits { FitsSet self.old set element.now.parts }
        ensures change { IsChange (λ s t. IsAnswer (add s element.now now) result s t) self.old set self.new }
        ensures refused { OnErr result (self.new ≡ self.old) }
    {
        let base = self.base.set(set);
        self.sets[set as usize].insert(self.alloc, base, element, now, &mut self.scratch)
    }

    /// Inserts into a set, if it has no live element of the same intervals.
    ///
    /// # Errors
    ///
    /// `Exists` if it has one, even if the new element has another expiry; the set stays. Otherwise
    /// as of an insertion. Each leaves the work as it was.
    pub fn create(&mut self, set: u32, element: &NewElement, now: u64) -> Result<u64, ChangeError>
        requires set { set < length self.old.sets }
        requires fits { FitsSet self.old set element.now.parts }
        ensures change { IsChange (λ s t. IsCreation (add s element.now now) result s t) self.old set self.new }
        ensures refused { OnErr result (self.new ≡ self.old) }
    {
        let base = self.base.set(set);
        self.sets[set as usize].create(self.alloc, base, element, now, &mut self.scratch)
    }

    /// Removes the first live element with exactly these intervals from a set, and returns its id.
    ///
    /// # Errors
    ///
    /// `Missing` exactly if there is none, also if memory runs out. `Memory` if memory runs out
    /// before the element is removed. Each leaves the work as it was.
    pub fn delete(&mut self, set: u32, parts: &Parts, now: u64) -> Result<u64, ChangeError>
        requires { set < length self.old.sets }
        ensures change { IsChange (λ s t. IsRemoval (removed s parts.now now) result s t) self.old set self.new }
        ensures missing { Lacks self.old set parts.now now → result ≡ Err (ChangeError.Refused Why.Missing) }
        ensures refused { OnErr result (self.new ≡ self.old) }
    {
        let base = self.base.set(set);
        self.sets[set as usize].delete(self.alloc, base, parts, now, &mut self.scratch)
    }

    /// As `delete`, but returns `None` if there is no such element, which takes no memory.
    ///
    /// # Errors
    ///
    /// `Memory` if memory runs out before the element is removed. The work is as it was.
    pub fn destroy(&mut self, set: u32, parts: &Parts, now: u64) -> Result<Option<u64>, Memory>
        requires { set < length self.old.sets }
        ensures change { IsChange (λ s t. IsDestruction (removed s parts.now now) result s t) self.old set self.new }
        ensures missing { Lacks self.old set parts.now now → result ≡ Ok None }
        ensures refused { OnErr result (self.new ≡ self.old) }
    {
        match self.delete(set, parts, now) {
            Ok(id) => Ok(Some(id)),
            Err(ChangeError::Refused(_)) => Ok(None),
            Err(ChangeError::Memory) => Err(Memory),
        }
    }

    /// Removes all elements from a set, and returns their number. Ids go on. A set without elements
    /// stays shared, and then the call takes no memory.
    ///
    /// # Errors
    ///
    /// `Memory` if memory runs out. The work is as it was.
    pub fn flush(&mut self, set: u32) -> Result<u64, Memory>
        requires { set < length self.old.sets }
        ensures change { IsChange (λ s t. IsFlush result s t) self.old set self.new }
        ensures empty { IsEmptyAt self.old set → result ≡ Ok 0 }
        ensures refused { OnErr result (self.new ≡ self.old) }
    {
        let base = self.base.set(set);
        self.sets[set as usize].flush(self.alloc, base)
    }

    /// The next generation: all sets without the elements that are expired at `now`, in
    /// milliseconds. Also returns the number of these elements in all sets. The work is unchanged,
    /// and keeps its expired elements. A set without expired elements is shared and not copied.
    ///
    /// # Errors
    ///
    /// `Memory` if memory runs out.
    pub fn seal(&mut self, now: u64) -> Result<(Arc<Generation, Global>, u64), Memory>
        requires { self.old.base.number < 2 ^ 63 }
        ensures same { self.new ≡ self.old }
        ensures sealed { IfOk result (λ r. (arc_value r.0 ≡ sealed self.old now) × (r.1 ≡ expired_count self.old.sets now)) }
    {
        let number = self.base.number + 1;
        let (sets, expired) = seal_all(self.alloc, self.sets.as_mut_slice(), &self.base, now)?;
        let generation = Arc::new(self.alloc, Generation { number, sets })?;
        Ok((generation, expired))
    }

    /// Makes the sealed generation the base, without open changes. It takes no memory.
    pub fn adopt(&mut self, sealed: Arc<Generation, Global>)
        requires { length (arc_value sealed).sets ≡ length self.old.base.sets }
        ensures { self.new ≡ opened (arc_value sealed) }
    {
        self.base = sealed;
        self.abort();
    }

    /// Takes all open changes back: all sets are those of the base. It takes no memory.
    pub fn abort(&mut self)
        ensures { self.new ≡ opened self.old.base }
    {
        undo(self.sets.as_mut_slice(), &self.base);
    }
}
