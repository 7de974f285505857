ghost use Rattle.std.specs.Prelude.{◌≡◌, ◌<◌, length, IfOk, OnOk, OnErr, count_by};
ghost use Rattle.set_model.specs.SetState.{purged, cleared};
ghost use Rattle.expiry_scan.specs.Expired.{is_expired};
ghost use Rattle.pipapo_image.specs.Image.Steps.{without_expired_at};

use crate::image::SetImage;
use crate::index::Index;
use expiry_scan::{TimedElements, expired};
use set_model::Memory;
use std::alloc::Global;

/// Whether it is faster to remove `count` of `len` elements one by one than to make the tables of
/// the others anew. A deletion is a pass over the tables. It takes about as long as the addition of
/// 64 elements and of a 64th of all elements.
fn is_few(count: u64, len: u64) -> bool {
    count <= len / (len / 64 + 64)
}

impl SetImage {
    /// Removes all elements that are expired at `now`, in milliseconds, and returns their number.
    /// The others keep their order and their ids. If none is expired, nothing is done. Otherwise
    /// the set becomes its live part.
    ///
    /// # Errors
    /// `Memory` if memory runs out. The set is as it was.
    #[tactic(auto, using(crate::proofs::Purging::all_stay))]
    pub fn purge(&mut self, alloc: Global, now: u64) -> Result<u64, Memory>
        ensures ok { IfOk result (λ n. (n ≡ count_by (is_expired now) self.old.elements) × (self.new ≡ purged self.old now)) }
        ensures err { OnErr result (self.new ≡ self.old) }
    {
        let count = self.elements.count_expired(now);
        if count > 0 {
            let mut kept = self.without_expired(alloc, now, count)?;
            kept.find_soonest(None);
            *self = kept;
        }
        Ok(count)
    }

    /// The same set without the elements that are expired at `now`, in milliseconds. This set is
    /// unchanged. Few elements are removed from a copy. If many are expired, the tables are made
    /// anew from the elements that stay.
    ///
    /// # Errors
    /// `Memory` if memory runs out.
    pub fn live_part(&self, alloc: Global, now: u64) -> Result<SetImage, Memory>
        ensures { IfOk result (λ set. set ≡ purged self.now now) }
    {
        self.without_expired(alloc, now, self.elements.count_expired(now))
    }

    /// The same set without the elements that are expired at `now`, of which there are `count`.
    fn without_expired(&self, alloc: Global, now: u64, count: u64) -> Result<SetImage, Memory>
        requires { count ≡ count_by (is_expired now) self.now.elements }
        ensures { IfOk result (λ set. set ≡ purged self.now now) }
    {
        if is_few(count, self.elements.len()) {
            self.copy_without_expired(alloc, now)
        } else {
            self.made_anew(alloc, now)
        }
    }

    /// A copy of the set. The expired elements are removed from it one by one, the last first.
    fn copy_without_expired(&self, alloc: Global, now: u64) -> Result<SetImage, Memory>
        ensures { IfOk result (λ set. set ≡ purged self.now now) }
    {
        let mut kept = self.copy(alloc)?;
        let count = self.elements.len();
        'places: for k in 0..count {
            kept.remove_expired_at(alloc, count - 1 - k, now)?;
        }
        Ok(kept)
    }

    /// Removes the element at place `i` if it is expired.
    fn remove_expired_at(&mut self, alloc: Global, i: u64, now: u64) -> Result<(), Memory>
        requires { i < length self.old.elements }
        ensures { OnOk result (self.new ≡ without_expired_at self.old i now) }
    {
        if expired(self.elements.at(i).expiry, now) {
            self.remove_at(alloc, i)?;
        }
        Ok(())
    }

    /// The set of the elements that are live, in their order, with tables made anew.
    fn made_anew(&self, alloc: Global, now: u64) -> Result<SetImage, Memory>
        ensures { IfOk result (λ set. set ≡ purged self.now now) }
    {
        let mut kept = SetImage::new(alloc, &self.kinds, self.size, self.disjoint)?;
        'elements: for i in 0..self.elements.len() {
            let element = self.elements.at(i);
            if !expired(element.expiry, now) {
                kept.append_copy(alloc, element)?;
            }
        }
        kept.next = self.next;
        Ok(kept)
    }

    /// Finds the soonest expiry of a page anew, if elements of the page came, changed or left by
    /// `passed`. A search for expired elements skips a page until the page's soonest expiry.
    pub fn find_soonest(&mut self, passed: Option<u64>)
        ensures { self.new ≡ self.old }
    {
        self.elements.find_soonest(passed);
    }

    /// Lets copies share the elements and the tables from now on. It copies neither.
    ///
    /// # Errors
    /// `Memory` if memory runs out. The set is as it was.
    pub fn settle(&mut self) -> Result<(), Memory>
        ensures { self.new ≡ self.old }
    {
        self.index.settle()?;
        self.elements.settle()?;
        Ok(())
    }

    /// Removes all elements, and returns their number. Ids go on.
    ///
    /// # Errors
    /// `Memory` if memory runs out. The set is as it was.
    pub fn clear(&mut self, alloc: Global) -> Result<u64, Memory>
        ensures ok { IfOk result (λ n. (n ≡ length self.old.elements) × (self.new ≡ cleared self.old)) }
        ensures err { OnErr result (self.new ≡ self.old) }
    {
        let count = self.elements.len();
        self.index = Index::new(alloc, &self.kinds)?;
        self.elements = TimedElements::new(alloc);
        Ok(count)
    }
}
