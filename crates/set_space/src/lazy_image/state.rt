ghost use Rattle.std.specs.Prelude.{◌≡◌, ◌<◌, ◌-◌, ◌^◌, false, length, count_by, None, IfOk, OnOk};
ghost use Rattle.set_model.specs.SetState.{purged, cleared, is_full};
ghost use Rattle.expiry_scan.specs.Expired.{is_expired};
ghost use Rattle.set_space.specs.LazyImage.{set_of, moment};

use crate::lazy_image::LazyImage;
use pipapo_image::SetImage;
use set_model::{Duplicate, Kinds, Memory};
use std::alloc::Global;

impl LazyImage {
    /// A set that has all elements of its image.
    pub(crate) fn new(image: SetImage) -> LazyImage
        ensures image { result.image ≡ image }
        ensures none { result.passed ≡ None }
    {
        LazyImage {
            count: image.elements().len(),
            image,
            passed: None,
        }
    }

    /// The same set. It shares the pages of this set's image.
    ///
    /// # Errors
    /// `Memory` if memory runs out.
    pub(crate) fn copy(&self, alloc: Global) -> Result<LazyImage, Memory>
        ensures { IfOk result (λ other. (other.image ≡ self.now.image) × (other.passed ≡ self.now.passed)) }
    {
        Ok(LazyImage {
            image: self.image.copy(alloc)?,
            passed: self.passed,
            count: self.count,
        })
    }

    /// The same set, with an image that has no other elements.
    ///
    /// # Errors
    /// `Memory` if memory runs out.
    pub(super) fn closed_up(&self, alloc: Global) -> Result<LazyImage, Memory>
        ensures same { IfOk result (λ other. set_of other ≡ set_of self.now) }
        ensures none { IfOk result (λ other. other.passed ≡ None) }
    {
        let image = match self.passed {
            Some(passed) => self.image.live_part(alloc, passed)?,
            None => self.image.copy(alloc)?,
        };
        Ok(LazyImage::new(image))
    }

    /// The set without its elements. Ids go on.
    ///
    /// # Errors
    /// `Memory` if memory runs out.
    pub(crate) fn emptied(&self, alloc: Global) -> Result<LazyImage, Memory>
        ensures { IfOk result (λ other. set_of other ≡ cleared (set_of self.now)) }
    {
        let image = self.image.emptied(alloc)?;
        Ok(LazyImage::new(image))
    }

    /// What each field of a key is.
    pub(crate) fn kinds(&self) -> &Kinds
        ensures { result.now ≡ (set_of self.now).kinds }
    {
        self.image.kinds()
    }

    /// The moment at which the image answers what the set answers at `now`, both in milliseconds.
    pub(crate) fn moment(&self, now: u64) -> u64
        ensures { result ≡ moment self.now.passed now }
    {
        match self.passed {
            Some(passed) => passed.max(now),
            None => now,
        }
    }

    /// How many elements the set has.
    pub(crate) fn len(&self) -> u64
        ensures { result ≡ length (set_of self.now).elements }
    {
        self.count
    }

    /// Whether the set has all elements that it may have. Elements that left don't count.
    pub(crate) fn is_full(&self) -> bool
        ensures full { result ≡ is_full (set_of self.now) }
        ensures next { result ≡ false → self.now.image.next < 2 ^ 64 - 1 }
    {
        self.image.is_full_with(self.count)
    }

    /// How many elements of the set are expired at `now`, in milliseconds: fewer than 2^32.
    pub(crate) fn count_expired(&self, now: u64) -> u64
        ensures count { result ≡ count_by (is_expired now) (set_of self.now).elements }
        ensures few { result < 2 ^ 32 }
    {
        self.image.elements().count_leaving(self.passed, now)
    }

    /// The set without the elements that are expired at `now`, in milliseconds, which are `count`.
    /// If few elements of the image left then, they stay in it.
    ///
    /// # Errors
    /// `Memory` if memory runs out.
    pub(crate) fn without_expired(
        &self,
        alloc: Global,
        now: u64,
        count: u64,
    ) -> Result<LazyImage, Memory>
        requires { count ≡ count_by (is_expired now) (set_of self.now).elements }
        ensures { IfOk result (λ rest. set_of rest ≡ purged (set_of self.now) now) }
    {
        let passed = self.moment(now);
        let rest = self.count - count;
        if self.is_many_without(rest) {
            let image = self.image.live_part(alloc, passed)?;
            return Ok(LazyImage::new(image));
        }
        Ok(LazyImage {
            image: self.image.copy(alloc)?,
            passed: Some(passed),
            count: rest,
        })
    }

    /// Removes the elements that left from the image, so that the rule numbers close up.
    ///
    /// # Errors
    /// `Memory` if memory runs out. The set is as it was.
    pub(crate) fn close_up(&mut self, alloc: Global) -> Result<(), Memory>
        ensures same { set_of self.new ≡ set_of self.old }
        ensures ok { OnOk result (self.new.passed ≡ None) }
    {
        if self.passed.is_some() {
            *self = self.closed_up(alloc)?;
        }
        Ok(())
    }

    /// Finds the soonest expiries of the set's elements anew, if they may be later than known.
    pub(crate) fn find_soonest(&mut self)
        ensures { set_of self.new ≡ set_of self.old }
    {
        self.image.find_soonest(self.passed);
    }

    /// Closes the rule numbers up if more than a quarter of the image has left.
    ///
    /// # Errors
    /// `Memory` if memory runs out. The set is as it was.
    pub(crate) fn close_gaps(&mut self, alloc: Global) -> Result<(), Memory>
        ensures { set_of self.new ≡ set_of self.old }
    {
        if self.is_many_without(self.count) {
            self.close_up(alloc)?;
        }
        Ok(())
    }

    /// Whether more than a quarter of the image has left if `count` elements stay.
    fn is_many_without(&self, count: u64) -> bool {
        let all = self.image.elements().len();
        all.saturating_sub(count) > all / 4
    }
}
