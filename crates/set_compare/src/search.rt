ghost use Rattle.std.specs.Prelude.{◌≡◌, ℕ, ◌<◌, List, true, [], ◌∷◌, OnOk, IfOk, None};
ghost use Rattle.set_model.specs.declared.kind.Kind.{Kind as OneKind};
ghost use Rattle.set_model.specs.declared.kind.Interval.{Interval};
ghost use Rattle.set_model.specs.Key.{key_fits, parts_fit, parts_hold, start_key};
ghost use Rattle.set_compare.specs.Search.{IsSearched, AllFit, is_reached, total_volume};

use crate::region::Region;
use pipapo_image::{Scratch, SetImage};
use set_model::{Interval, Key, Memory};
use std::alloc::Global;

/// The search for the least key that a set doesn't find.
#[derive(Drop)]
pub(crate) struct Search {
    /// The least such key so far.
    least: Option<Key>,
    /// The keys that are still to be looked up.
    rest: Vec<Region>,
}

/// Whether there is a least key so far that comes no later than `key`.
fn reaches(least: &Option<Key>, key: &Key) -> bool
    ensures { result ≡ is_reached least.now key.now }
{
    match least {
        Some(least) => least.as_slice().cmp(&key.as_slice()).is_le(),
        None => false,
    }
}

impl Search {
    /// A search of no keys.
    pub(crate) fn new(alloc: Global) -> Search
        ensures least { result.least ≡ None }
        ensures rest { result.rest.items ≡ [] }
    {
        Search {
            least: None,
            rest: Vec::new(alloc),
        }
    }

    /// Looks up the keys that an element of these intervals holds.
    ///
    /// # Errors
    /// `Memory` if memory runs out.
    pub(crate) fn look_up(
        &mut self,
        alloc: Global,
        parts: &[Interval],
        other: &SetImage,
        now: u64,
        scratch: &mut Scratch,
    ) -> Result<(), Memory>
        requires fit { parts_fit other.now.kinds parts.now ≡ true }
        requires done { self.old.rest.items ≡ [] }
        ensures found { OnOk result (IsSearched other.now now self.old.least (parts.now ∷ []) self.new.least []) }
        ensures done { OnOk result (self.new.rest.items ≡ []) }
    {
        self.rest.push(Region::of(alloc, parts)?)?;
        'regions: while let Some(region) = self.rest.pop() {
            self.examine(alloc, region, other, now, scratch)?;
        }
        Ok(())
    }

    /// Looks up the region's least key. If the set doesn't find it, it is the least key so far.
    /// Else the keys that the found element doesn't hold are still to be looked up.
    fn examine(
        &mut self,
        alloc: Global,
        region: Region,
        other: &SetImage,
        now: u64,
        scratch: &mut Scratch,
    ) -> Result<(), Memory>
        requires fit { parts_fit other.now.kinds region ≡ true }
        ensures searched { OnOk result (IsSearched other.now now self.old.least (region ∷ self.old.rest.items) self.new.least self.new.rest.items) }
        ensures fit { OnOk result ((kinds : List OneKind) → AllFit kinds (region ∷ self.old.rest.items) → AllFit kinds self.new.rest.items) }
        ensures fewer { OnOk result (total_volume self.new.rest.items < total_volume (region ∷ self.old.rest.items)) }
    {
        let key = region.least_key(alloc)?;
        if reaches(&self.least, &key) {
            return Ok(());
        }
        match other.find(&key, now, scratch) {
            Some(found) => {
                let element = other.elements().at(found.place);
                region.subtract(alloc, element.parts.as_slice(), &mut self.rest)?;
                Ok(())
            }
            None => {
                self.least = Some(key);
                Ok(())
            }
        }
    }

    /// The least key that the set doesn't find, of all keys that were looked up.
    pub(crate) fn into_least(self) -> Option<Key>
        ensures { result ≡ self.least }
    {
        self.least
    }
}
