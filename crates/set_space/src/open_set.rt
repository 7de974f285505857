ghost use Rattle.std.specs.Prelude.{◌≡◌, ◌<◌, ◌^◌, true, None, Ok, Err, [], length, count_by, IfOk, IfErr, OnErr};
ghost use Rattle.std.specs.Arc.{arc_value};
ghost use Rattle.set_model.specs.Key.{parts_fit};
ghost use Rattle.set_model.specs.SetState.{State, add, removed, purged, cleared};
ghost use Rattle.expiry_scan.specs.Expired.{is_expired};
ghost use Rattle.pipapo_image.specs.Image.Insert.{IsAnswer};
ghost use Rattle.pipapo_image.specs.Image.Remove.{IsRemoval};
ghost use Rattle.set_space.specs.Copies.{copied};
ghost use Rattle.set_space.specs.LazyImage.{set_of};
ghost use Rattle.set_space.specs.OpenSets.{open_state, IsPurgedAnew};
ghost use Rattle.set_space.specs.Answers.{IsCreation};

use crate::kept_set::KeptSet;
use crate::lazy_image::LazyImage;
use pipapo_image::{Added, ChangeError, Scratch};
use set_model::{Memory, NewElement, Parts, Why, parts_fit};
use std::alloc::Global;
use std::mem;
use std::sync::Arc;

/// A set of the open transaction, given the set of the base.
#[derive(Drop)]
pub(crate) enum OpenSet {
    /// It is the set of the base.
    Unchanged,
    /// It was changed, and this work alone has it.
    Changed(LazyImage),
    /// It was changed, and a sealed generation shares it.
    Sealed(Arc<KeptSet, Global>),
}

/// Makes a changed set ready for sharing. If memory runs out, the same set comes back.
fn settled(alloc: Global, lazy: LazyImage) -> Result<Arc<KeptSet, Global>, LazyImage>
    ensures ok { IfOk result (λ shared. arc_value shared ≡ set_of lazy) }
    ensures err { IfErr result (λ same. set_of same ≡ set_of lazy) }
{
    match KeptSet::of(alloc, lazy) {
        Ok(kept) => match Arc::new(alloc, kept) {
            Ok(shared) => Ok(shared),
            Err(failed) => Err(failed.value.into_lazy()),
        },
        Err(same) => Err(same),
    }
}

impl OpenSet {
    /// The image that keeps the set.
    fn lazy<'a>(&'a self, base: &'a KeptSet) -> &'a LazyImage
        ensures { set_of result.now ≡ open_state self.now base.now }
    {
        match self {
            OpenSet::Unchanged => base.lazy(),
            OpenSet::Changed(changed) => changed,
            OpenSet::Sealed(kept) => kept.lazy(),
        }
    }

    /// How many elements the set has.
    fn len(&self, base: &KeptSet) -> u64
        ensures { result ≡ length (open_state self.now base.now).elements }
    {
        match self {
            OpenSet::Unchanged => base.len(),
            OpenSet::Changed(changed) => changed.len(),
            OpenSet::Sealed(kept) => kept.len(),
        }
    }

    /// Whether intervals fit the set's kinds.
    pub(crate) fn fits(&self, base: &KeptSet, parts: &Parts) -> bool
        ensures { result ≡ parts_fit (open_state self.now base.now).kinds parts.now }
    {
        parts_fit(self.lazy(base).kinds(), parts)
    }

    /// Replaces the set by a copy, if there is one.
    fn take(&mut self, copy: Option<LazyImage>)
        ensures { (base : State) → open_state self.new base ≡ copied copy (open_state self.old base) }
    {
        if let Some(changed) = copy {
            *self = OpenSet::Changed(changed);
        }
    }

    /// Inserts into the set. A set that is shared is copied if something changes. It is also copied
    /// if its rule numbers must close up before this is known.
    pub(crate) fn insert(
        &mut self,
        alloc: Global,
        base: &KeptSet,
        element: &NewElement,
        now: u64,
        scratch: &mut Scratch,
    ) -> Result<Added, ChangeError>
        requires { parts_fit (open_state self.old base.now).kinds element.now.parts ≡ true }
        ensures { IsAnswer (add (open_state self.old base.now) element.now now) result (open_state self.old base.now) (open_state self.new base.now) }
    {
        if let OpenSet::Changed(changed) = self {
            return changed.insert(alloc, element, now, scratch);
        }
        let (came, copy) = self.lazy(base).inserted(alloc, element, now, scratch)?;
        self.take(copy);
        came
    }

    /// Inserts into the set, if it has no live element of the same intervals. A shared set is
    /// copied as by `insert`.
    pub(crate) fn create(
        &mut self,
        alloc: Global,
        base: &KeptSet,
        element: &NewElement,
        now: u64,
        scratch: &mut Scratch,
    ) -> Result<u64, ChangeError>
        requires { parts_fit (open_state self.old base.now).kinds element.now.parts ≡ true }
        ensures { IsCreation (add (open_state self.old base.now) element.now now) result (open_state self.old base.now) (open_state self.new base.now) }
    {
        if let OpenSet::Changed(changed) = self {
            return changed.create(alloc, element, now, scratch);
        }
        let (came, copy) = self.lazy(base).created(alloc, element, now, scratch)?;
        self.take(copy);
        came
    }

    /// Removes the first live element with exactly these intervals. A shared set is copied.
    pub(crate) fn delete(
        &mut self,
        alloc: Global,
        base: &KeptSet,
        parts: &Parts,
        now: u64,
        scratch: &mut Scratch,
    ) -> Result<u64, ChangeError>
        ensures removal { IsRemoval (removed (open_state self.old base.now) parts.now now) result (open_state self.old base.now) (open_state self.new base.now) }
        ensures missing { removed (open_state self.old base.now) parts.now now ≡ None → result ≡ Err (ChangeError.Refused Why.Missing) }
    {
        if let OpenSet::Changed(changed) = self {
            return changed.delete(alloc, parts, now, scratch);
        }
        let (id, changed) = self.lazy(base).without(alloc, parts, now, scratch)?;
        *self = OpenSet::Changed(changed);
        Ok(id)
    }

    /// Removes all elements, and returns their number. A set without elements is unchanged, and
    /// stays shared if it was.
    pub(crate) fn flush(&mut self, alloc: Global, base: &KeptSet) -> Result<u64, Memory>
        ensures ok { IfOk result (λ n. (n ≡ length (open_state self.old base.now).elements) × (open_state self.new base.now ≡ cleared (open_state self.old base.now))) }
        ensures err { OnErr result (open_state self.new base.now ≡ open_state self.old base.now) }
        ensures empty { (open_state self.old base.now).elements ≡ [] → (result ≡ Ok 0) × (self.new ≡ self.old) }
    {
        let count = self.len(base);
        if count == 0 {
            return Ok(0);
        }
        let emptied = self.lazy(base).emptied(alloc)?;
        *self = OpenSet::Changed(emptied);
        Ok(count)
    }

    /// Prepares a changed set for a commit. Its rule numbers close up if many elements left, and
    /// its soonest expiries are found.
    fn ready(&mut self, alloc: Global) -> Result<(), Memory>
        ensures { (base : State) → open_state self.new base ≡ open_state self.old base }
    {
        if let OpenSet::Changed(changed) = self {
            changed.close_gaps(alloc)?;
            changed.find_soonest();
        }
        Ok(())
    }

    /// Keeps a set that was shared, and shares it again.
    fn keep(&mut self, kept: Arc<KeptSet, Global>) -> Result<Arc<KeptSet, Global>, Memory>
        ensures kept { (base : State) → open_state self.new base ≡ arc_value kept }
        ensures shared { IfOk result (λ other. arc_value other ≡ arc_value kept) }
    {
        let other = Arc::try_clone(&kept);
        *self = OpenSet::Sealed(kept);
        Ok(other?)
    }

    /// Shares the set as it is. Nothing is copied.
    fn share(
        &mut self,
        alloc: Global,
        base: &Arc<KeptSet, Global>,
    ) -> Result<Arc<KeptSet, Global>, Memory>
        ensures same { open_state self.new (arc_value base.now) ≡ open_state self.old (arc_value base.now) }
        ensures shared { IfOk result (λ kept. arc_value kept ≡ open_state self.old (arc_value base.now)) }
    {
        match mem::replace(self, OpenSet::Unchanged) {
            OpenSet::Unchanged => Ok(Arc::try_clone(base)?),
            OpenSet::Sealed(kept) => self.keep(kept),
            OpenSet::Changed(changed) => match settled(alloc, changed) {
                Ok(kept) => self.keep(kept),
                Err(same) => {
                    *self = OpenSet::Changed(same);
                    Err(Memory)
                }
            },
        }
    }

    /// The set as it is published at `now`, in milliseconds: without the elements that are expired
    /// then. Also returns their number, fewer than 2^32. The open set is unchanged. A set without
    /// expired elements is shared and not copied.
    #[tactic(auto, using(pipapo_image::proofs::Purging::all_stay))]
    pub(crate) fn seal(
        &mut self,
        alloc: Global,
        base: &Arc<KeptSet, Global>,
        now: u64,
    ) -> Result<(Arc<KeptSet, Global>, u64), Memory>
        ensures same { open_state self.new (arc_value base.now) ≡ open_state self.old (arc_value base.now) }
        ensures sealed { IfOk result (λ r. (arc_value r.0 ≡ purged (open_state self.old (arc_value base.now)) now) × (r.1 ≡ count_by (is_expired now) (open_state self.old (arc_value base.now)).elements) × (r.1 < 2 ^ 32)) }
    {
        self.ready(alloc)?;
        match purged_anew(alloc, self.lazy(base), now)? {
            Some((kept, count)) => Ok((Arc::new(alloc, kept)?, count)),
            None => Ok((self.share(alloc, base)?, 0)),
        }
    }
}

/// A set without the elements that are expired at `now`, and their number. `None` if none is
/// expired, so that the set can be shared. Then nothing is made anew.
fn purged_anew(alloc: Global, lazy: &LazyImage, now: u64) -> Result<Option<(KeptSet, u64)>, Memory>
    ensures none { count_by (is_expired now) (set_of lazy.now).elements ≡ 0 → result ≡ Ok None }
    ensures some { IfOk result (λ anew. IsPurgedAnew (set_of lazy.now) now anew) }
{
    let count = lazy.count_expired(now);
    if count == 0 {
        return Ok(None);
    }
    let mut rest = lazy.without_expired(alloc, now, count)?;
    rest.find_soonest();
    match KeptSet::of(alloc, rest) {
        Ok(kept) => Ok(Some((kept, count))),
        Err(_) => Err(Memory),
    }
}
