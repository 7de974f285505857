ghost use Rattle.std.specs.Prelude.{◌≡◌, ◌<◌, ◌≤◌, ℕ, Option, Some, true, length, slice_get, IfOk, IfErr};
ghost use Rattle.set_model.specs.Key.{key_fits, parts_fit};
ghost use Rattle.set_model.specs.SetState.{State, empty_set};
ghost use Rattle.pipapo_image.specs.Image.Found.{found};
ghost use Rattle.set_space.specs.LazyImage.{set_of};
ghost use Rattle.set_space.specs.KeptSet.{gap_marks, gaps_before};
ghost use Rattle.set_space.specs.Tables.{HasTables};

use crate::gap_search::place_in_image;
use crate::lazy_image::LazyImage;
use bit_rows::RankedBits;
use pipapo_image::{Index, Scratch, SetImage};
use set_model::{Element, Found, Key, Kinds, Memory};
use std::alloc::Global;
use std::marker::Model;

/// A set of a generation. All generations in which it is the same share it. Contracts see its
/// state.
#[derive(Drop)]
pub struct KeptSet {
    lazy: LazyImage,
    /// Which elements of the image left.
    gaps: RankedBits,
}

impl Model for KeptSet {
    ghost use Rattle.std.specs.Prelude.{◌≡◌};
    ghost use Rattle.set_model.specs.SetState.{State};
    ghost use Rattle.set_space.specs.LazyImage.{set_of};
    ghost use Rattle.set_space.specs.KeptSet.{gap_marks};

    ghost Value = { State };

    ghost view = { λ a. set_of a.lazy };

    ghost invariant = { λ a. a.gaps ≡ gap_marks a.lazy.passed a.lazy.image };
}

/// Which elements of an image left by the moment `passed`.
fn gaps_of(alloc: Global, image: &SetImage, passed: Option<u64>) -> Result<RankedBits, Memory>
    ensures { IfOk result (λ gaps. gaps ≡ gap_marks passed image.now) }
{
    match passed {
        None => Ok(RankedBits::new(alloc)),
        Some(moment) => image.elements().expired_marks(alloc, moment),
    }
}

/// How many gaps come before a place of the image that has these gaps.
#[inline]
pub(crate) fn gaps_before(gaps: &RankedBits, place: u64) -> u64
    ensures { (passed : Option ℕ) (image : State) → gaps.now ≡ gap_marks passed image → place ≤ length image.elements
        → result ≡ gaps_before passed image place }
{
    gaps.rank(place.min(gaps.len()))
}

/// Lets copies share an image from now on, and finds its gaps. Returns the gaps.
fn settled(alloc: Global, lazy: &mut LazyImage) -> Result<RankedBits, Memory>
    ensures same { set_of lazy.new ≡ set_of lazy.old }
    ensures gaps { IfOk result (λ gaps. gaps ≡ gap_marks lazy.new.passed lazy.new.image) }
{
    lazy.image.settle()?;
    gaps_of(alloc, &lazy.image, lazy.passed)
}

impl KeptSet {
    /// A set of 1 to 16 fields without elements.
    ///
    /// # Errors
    /// `Memory` if memory runs out.
    pub(crate) fn new(
        alloc: Global,
        kinds: &Kinds,
        size: Option<u32>,
        disjoint: bool,
    ) -> Result<KeptSet, Memory>
        requires some { 1 ≤ length kinds.now }
        requires few { length kinds.now ≤ 16 }
        ensures { IfOk result (λ set. set ≡ empty_set kinds.now size disjoint) }
    {
        Ok(KeptSet {
            lazy: LazyImage::new(SetImage::new(alloc, kinds, size, disjoint)?),
            gaps: RankedBits::new(alloc),
        })
    }

    /// Makes a changed set ready for sharing: generations share it, and copies share its pages. Its
    /// soonest expiries are known already. If memory runs out, the same set comes back.
    pub(crate) fn of(alloc: Global, mut lazy: LazyImage) -> Result<KeptSet, LazyImage>
        ensures ok { IfOk result (λ kept. kept ≡ set_of lazy) }
        ensures err { IfErr result (λ same. set_of same ≡ set_of lazy) }
    {
        match settled(alloc, &mut lazy) {
            Ok(gaps) => Ok(KeptSet { lazy, gaps }),
            Err(_) => Err(lazy),
        }
    }

    /// What each field of a key is.
    pub fn kinds(&self) -> &Kinds
        ensures { result.now ≡ self.now.kinds }
    {
        self.lazy.image.kinds()
    }

    /// Whether a live element that shares a key refuses an addition.
    pub fn is_disjoint(&self) -> bool
        ensures { result ≡ self.now.disjoint }
    {
        self.lazy.image.is_disjoint()
    }

    /// How many elements the set has.
    pub fn len(&self) -> u64
        ensures { result ≡ length self.now.elements }
    {
        let count = self.lazy.image.elements().len();
        count - gaps_before(&self.gaps, count)
    }

    /// The element at place `i`, in the order of insertion. It takes no memory.
    ///
    /// Elements that left may be between two elements of the set. So this searches, from the place `near` of the image on, and
    /// leaves the place after the element there. Each number leads to the same element. A walk in rising order begins with 0,
    /// and passes on what it gets. Then an element's time doesn't depend on how many there are.
    pub fn element(&self, i: u64, near: &mut u64) -> &Element
        requires { i < length self.now.elements }
        ensures element { slice_get self.now.elements i ≡ Some result.now }
        ensures fit { parts_fit self.now.kinds result.now.parts ≡ true }
    {
        let elements = self.lazy.image.elements();
        let place = place_in_image(&self.lazy, &self.gaps, i, *near);
        *near = place + 1;
        elements.at(place)
    }

    /// The first element of the set that is live at `now`, in milliseconds, and holds the key.
    /// `None` if there is none. It takes no memory.
    pub fn find(&self, key: &Key, now: u64, scratch: &mut Scratch) -> Option<Found>
        requires { key_fits self.now.kinds key.now ≡ true }
        ensures { result ≡ found self.now key.now now }
    {
        match self.lazy.image.find(key, self.lazy.moment(now), scratch) {
            None => None,
            Some(found) => Some(Found {
                place: found.place - gaps_before(&self.gaps, found.place),
                id: found.id,
            }),
        }
    }

    /// The tables that lookups read. They may also have rules of elements that left the set, which
    /// no lookup finds.
    pub fn index(&self) -> &Index
        ensures { HasTables self.now result.now }
    {
        self.lazy.image.index()
    }

    /// An image of the set's elements alone, which listings and dumps use.
    ///
    /// # Errors
    /// `Memory` if memory runs out.
    pub fn closed_up(&self, alloc: Global) -> Result<SetImage, Memory>
        ensures { IfOk result (λ image. image ≡ self.now) }
    {
        match self.lazy.passed {
            None => self.lazy.image.copy(alloc),
            Some(moment) => self.lazy.image.live_part(alloc, moment),
        }
    }

    /// The image that keeps the set.
    pub(crate) fn into_lazy(self) -> LazyImage
        ensures { set_of result ≡ self }
    {
        self.lazy
    }

    /// The image that keeps the set.
    pub(crate) fn lazy(&self) -> &LazyImage
        ensures { set_of result.now ≡ self.now }
    {
        &self.lazy
    }
}
