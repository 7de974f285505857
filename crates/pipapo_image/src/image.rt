ghost use Rattle.std.specs.Prelude.{◌≡◌, ◌+◌, ◌≤◌, ◌<◌, true, length, All, OnOk, OnErr, IfOk, IfSome};
ghost use Rattle.set_model.specs.Key.{key_fits, parts_fit};
ghost use Rattle.set_model.specs.SetState.{place, empty_set, cleared, element_at, rules_limit};
ghost use Rattle.pipapo_image.specs.Image.Found.{found, found_at, IsPlace};

pub(crate) mod among;
pub(crate) mod append;
pub(crate) mod decision;
pub(crate) mod delete;
pub(crate) mod insert;
pub(crate) mod keys;
pub(crate) mod purge;
pub(crate) mod runs;
pub(crate) mod sharing;

use crate::index::Index;
use crate::index::scratch::Scratch;
use expiry_scan::TimedElements;
use set_model::{Duplicate, Found, Key, Kinds, Memory};
use std::alloc::Global;
use std::marker::Model;

/// A set: its elements in the order of insertion, and their tables. Contracts see the kinds, the
/// size, the flag `disjoint`, the elements and the next id.
#[derive(Drop)]
pub struct SetImage {
    /// What each field of a key is.
    pub(crate) kinds: Kinds,
    /// The most elements that it may have.
    pub(crate) size: Option<u32>,
    /// Whether a live element that shares a key refuses an addition. [`crate::apart_law`] says at
    /// which moments no two live elements then share a key.
    pub(crate) disjoint: bool,
    /// The tables of the elements.
    pub(crate) index: Index,
    pub(crate) elements: TimedElements,
    /// The id of the next new element.
    pub(crate) next: u64,
}

impl Model for SetImage {
    ghost use Rattle.set_model.specs.SetState.{State};
    ghost use Rattle.pipapo_image.specs.Image.{IsImage};

    ghost Value = { State };

    ghost view = { λ a. record { kinds = a.kinds; size = a.size; disjoint = a.disjoint; elements = a.elements; next = a.next } };

    ghost invariant = { λ a. IsImage a.kinds a.elements a.index };
}

impl SetImage {
    ghost use Rattle.std.specs.Prelude.{List, ℕ};
    ghost use Rattle.set_model.specs.declared.kind.Interval.{Interval};
    ghost use Rattle.pipapo_image.specs.Index.{IsShapedIndex, IsIndexOf};
    ghost use Rattle.pipapo_image.specs.Index.Walk.{IsKeyOf};
    ghost use Rattle.pipapo_image.specs.Index.Sharing.{AreIntervalsOf};

    /// A set of 1 to 16 fields without elements.
    ///
    /// # Errors
    /// `Memory` if memory runs out.
    pub fn new(
        alloc: Global,
        kinds: &Kinds,
        size: Option<u32>,
        disjoint: bool,
    ) -> Result<SetImage, Memory>
        requires some { 1 ≤ length kinds.now }
        requires few { length kinds.now ≤ 16 }
        ensures { IfOk result (λ set. set ≡ empty_set kinds.now size disjoint) }
    {
        Ok(SetImage {
            kinds: kinds.copy(alloc)?,
            size,
            disjoint,
            index: Index::new(alloc, kinds)?,
            elements: TimedElements::new(alloc),
            next: 0,
        })
    }

    /// A set of the same kinds and size without the elements. Ids go on.
    ///
    /// # Errors
    /// `Memory` if memory runs out.
    pub fn emptied(&self, alloc: Global) -> Result<SetImage, Memory>
        ensures { IfOk result (λ set. set ≡ cleared self.now) }
    {
        let mut image = SetImage::new(alloc, &self.kinds, self.size, self.disjoint)?;
        image.next = self.next;
        Ok(image)
    }

    /// A copy of the set. It shares the settled pages of the tables and of the elements
    /// ([`SetImage::settle`]). It copies the other pages, but not the elements' intervals and
    /// comments.
    ///
    /// # Errors
    /// `Memory` if memory runs out.
    pub fn copy(&self, alloc: Global) -> Result<SetImage, Memory>
        ensures { IfOk result (λ set. set ≡ self.now) }
    {
        Ok(SetImage {
            kinds: self.kinds.copy(alloc)?,
            size: self.size,
            disjoint: self.disjoint,
            index: self.index.copy(alloc)?,
            elements: self.elements.copy(alloc)?,
            next: self.next,
        })
    }

    /// What each field of a key is.
    pub fn kinds(&self) -> &Kinds
        ensures { result.now ≡ self.now.kinds }
    {
        &self.kinds
    }

    /// Whether a live element that shares a key refuses an addition.
    pub fn is_disjoint(&self) -> bool
        ensures { result ≡ self.now.disjoint }
    {
        self.disjoint
    }

    /// The elements in the order of insertion. Their intervals fit the kinds. There are at most
    /// 1,048,576, since each has a rule in each field.
    pub fn elements(&self) -> &TimedElements
        ensures same { result.now ≡ self.now.elements }
        ensures fit { All (λ e. parts_fit self.now.kinds e.parts ≡ true) self.now.elements }
        ensures few { length self.now.elements ≤ rules_limit }
    {
        &self.elements
    }

    /// The set's tables. Between calls they are always the tables of its elements. Callers may look
    /// up each key, and all intervals that fit the kinds.
    pub fn index(&self) -> &Index
        ensures tables { IsIndexOf self.now.kinds self.now.elements result.now }
        ensures shaped { IsShapedIndex result.now }
        ensures keys { (key : List ℕ) → key_fits self.now.kinds key ≡ true → IsKeyOf result.now.fields key }
        ensures intervals { (parts : List Interval) → parts_fit self.now.kinds parts ≡ true → AreIntervalsOf result.now.fields parts }
        ensures fit { All (λ e. parts_fit self.now.kinds e.parts ≡ true) self.now.elements }
    {
        &self.index
    }

    /// The place of the first element that is live at `now`, in milliseconds, and holds the key.
    pub(crate) fn place(&self, key: &[u128], now: u64, scratch: &mut Scratch) -> Option<u64>
        requires { key_fits self.now.kinds key.now ≡ true }
        ensures { IsPlace self.now key.now now result }
    {
        self.index.find_values(key, now, scratch)
    }

    /// The place of the same element by the textbook lookup, to compare the two lookups.
    pub fn plain_place(&self, key: &Key, now: u64, scratch: &mut Scratch) -> Option<u64>
        requires { key_fits self.now.kinds key.now ≡ true }
        ensures { IsPlace self.now key.now now result }
    {
        self.index.find_plain(key, now, scratch)
    }

    /// The first element of the list that is live at `now`, in milliseconds, and holds the key.
    /// `None` if there is none. It takes no memory.
    pub fn find(&self, key: &Key, now: u64, scratch: &mut Scratch) -> Option<Found>
        requires { key_fits self.now.kinds key.now ≡ true }
        ensures { result ≡ found self.now key.now now }
    {
        self.found_at(self.place(key.as_slice(), now, scratch))
    }

    /// The place and the id of the element at a place.
    pub(crate) fn found_at(&self, place: Option<u64>) -> Option<Found>
        requires { IfSome place (λ i. i < length self.now.elements) }
        ensures { result ≡ found_at self.now place }
    {
        match place {
            Some(place) => Some(Found {
                place,
                id: self.elements.at(place).id,
            }),
            None => None,
        }
    }
}
