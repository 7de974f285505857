ghost use Rattle.std.specs.Prelude.{◌≡◌, ◌-◌, ◌<◌, ◌^◌, ◌==◌, ◌&&◌, ◌||◌, not, true, false, List, length, Some, None, Ok};
ghost use Rattle.std.specs.List.{list_all, zip};
ghost use Rattle.set_model.specs.Key.{parts_fit, start_key, end_key, same_parts};
ghost use Rattle.set_model.specs.SetState.{add, element_at, place, twin_place, sharing_place, is_full, crowded_field};
ghost use Rattle.pipapo_image.specs.Index.Built.{Built};
ghost use Rattle.pipapo_image.specs.Index.Grow.{IsColumn};
ghost use Rattle.pipapo_image.specs.Image.Decision.{IsDecision};
ghost use Rattle.pipapo_image.specs.Image.Deciding.{IsTest, IsTwinPlace, is_full_with, add_if, by_start, by_twin, by_way, by_size, by_rules, at_start, add_again};

use crate::answers::ChangeError;
use crate::image::SetImage;
use crate::index::columns::{columns, crowded_field};
use crate::index::scratch::Scratch;
use set_model::{Block, Interval, Listed, NewElement, Parts, Why};
use std::alloc::Global;

/// What an insertion does, if nothing refuses it.
#[derive(Drop)]
pub enum Decision {
    /// The element of the same intervals stays as it is.
    Stays { id: u64 },
    /// The element of the same intervals, at place `place`, gets another expiry.
    Renews { place: u64, id: u64 },
    /// A new element is added, with these rules.
    Adds { columns: Vec<Listed<Block>> },
}

impl Decision {
    ghost use Rattle.pipapo_image.specs.Image.Decision.{existing};

    /// The id of the element of the same intervals that is there already. `None` if a new element
    /// is added.
    pub fn existing(&self) -> Option<u64>
        ensures { result ≡ existing self.now }
    {
        match self {
            Decision::Stays { id } => Some(*id),
            Decision::Renews { id, .. } => Some(*id),
            Decision::Adds { .. } => None,
        }
    }
}

/// Whether two lists have the same intervals.
pub(crate) fn is_same(a: &[Interval], b: &[Interval]) -> bool
    ensures { result ≡ same_parts a.now b.now }
{
    a.len() == b.len() && all_same(a, b)
}

fn all_same(a: &[Interval], b: &[Interval]) -> bool
    ensures { result ≡ list_all (λ p. (p.0.low == p.1.low) && (p.0.high == p.1.high)) (zip a.now b.now) }
{
    a.iter()
        .zip(b.iter())
        .all(|(x, y)| x.low == y.low && x.high == y.high)
}

/// Whether each interval has one value. Then the end key is the start key.
fn is_single(parts: &[Interval]) -> bool
    ensures { result ≡ list_all (λ part. part.low == part.high) parts.now }
{
    parts.iter().all(|part| part.low == part.high)
}

impl SetImage {
    /// Decides what an insertion of this element does. The set is unchanged. `now` is in
    /// milliseconds.
    ///
    /// # Errors
    ///
    /// As of an insertion.
    pub fn decide(
        &self,
        alloc: Global,
        element: &NewElement,
        now: u64,
        scratch: &mut Scratch,
    ) -> Result<Decision, ChangeError>
        requires { parts_fit self.now.kinds element.now.parts ≡ true }
        ensures { IsDecision self.now element.now (add self.now element.now now) result }
    {
        self.decide_if(alloc, element, now, self.is_full(), scratch)
    }

    /// Decides what an insertion of this element does, given whether the set is full. The set is
    /// unchanged. `now` is in milliseconds. A caller asks for itself whether the set is full if its
    /// set lacks elements of this image.
    ///
    /// # Errors
    ///
    /// As of an insertion. `Full` comes exactly if the set is full, and no element is there already
    /// or in the way.
    pub fn decide_if(
        &self,
        alloc: Global,
        element: &NewElement,
        now: u64,
        full: bool,
        scratch: &mut Scratch,
    ) -> Result<Decision, ChangeError>
        requires fit { parts_fit self.now.kinds element.now.parts ≡ true }
        requires next { full ≡ false → self.now.next < 2 ^ 64 - 1 }
        ensures { IsDecision self.now element.now (add_if full self.now element.now now) result }
    {
        if self.is_by_ends(&element.parts) {
            self.decide_by_ends(alloc, element, now, full, scratch)
        } else {
            self.decide_apart(alloc, element, now, full, scratch)
        }
    }

    /// Whether only elements that hold the start key or the end key can be in the way. This is so
    /// if elements may share keys, and if the intervals hold one key alone.
    fn is_by_ends(&self, parts: &Parts) -> bool
        ensures { result ≡ (not self.now.disjoint || list_all (λ part. part.low == part.high) parts.now) }
    {
        !self.disjoint || is_single(parts.as_slice())
    }

    /// Decides in a set in which no two live elements may share a key.
    #[tactic(auto, using(crate::proofs::AddLaws::decides))]
    fn decide_apart(
        &self,
        alloc: Global,
        element: &NewElement,
        now: u64,
        full: bool,
        scratch: &mut Scratch,
    ) -> Result<Decision, ChangeError>
        requires fit { parts_fit self.now.kinds element.now.parts ≡ true }
        requires next { full ≡ false → self.now.next < 2 ^ 64 - 1 }
        ensures { IsDecision self.now element.now (by_twin self.now element.now now full (twin_place self.now element.now.parts now)) result }
    {
        match self.twin_place(&element.parts, now, scratch) {
            Some(i) => Ok(self.decide_again(i, element)),
            None => Ok(Decision::Adds {
                columns: self.columns_unshared(alloc, &element.parts, now, full, scratch)?,
            }),
        }
    }

    /// Decides if only elements that hold the start key or the end key can be in the way.
    #[tactic(auto, using(crate::proofs::AddLaws::decides))]
    fn decide_by_ends(
        &self,
        alloc: Global,
        element: &NewElement,
        now: u64,
        full: bool,
        scratch: &mut Scratch,
    ) -> Result<Decision, ChangeError>
        requires fit { parts_fit self.now.kinds element.now.parts ≡ true }
        requires next { full ≡ false → self.now.next < 2 ^ 64 - 1 }
        ensures { IsDecision self.now element.now (by_start self.now element.now now full (place self.now (start_key element.now.parts) now)) result }
    {
        match self.start_place(&element.parts, now, scratch) {
            Some(i) => self.decide_at(i, element),
            None => Ok(Decision::Adds {
                columns: self.columns_apart(alloc, &element.parts, now, full, scratch)?,
            }),
        }
    }

    /// The place of the element that is there already: the first live one that holds the start key,
    /// if it has the same intervals.
    fn twin_place(&self, parts: &Parts, now: u64, scratch: &mut Scratch) -> Option<u64>
        requires { parts_fit self.now.kinds parts.now ≡ true }
        ensures { IsTwinPlace self.now parts.now now result }
    {
        match self.start_place(parts, now, scratch) {
            Some(i) if self.has_parts(i, parts) => Some(i),
            _ => None,
        }
    }

    /// Whether the element at place `i` has these intervals.
    pub(crate) fn has_parts(&self, i: u64, parts: &Parts) -> bool
        requires { i < length self.now.elements }
        ensures { result ≡ same_parts (element_at self.now i).parts parts.now }
    {
        is_same(self.elements.at(i).parts.as_slice(), parts.as_slice())
    }

    fn id_at(&self, i: u64) -> u64
        requires { i < length self.now.elements }
        ensures { result ≡ (element_at self.now i).id }
    {
        self.elements.at(i).id
    }

    /// Decides if the element at place `i` holds the start key.
    fn decide_at(&self, i: u64, element: &NewElement) -> Result<Decision, ChangeError>
        requires { i < length self.now.elements }
        ensures { IsDecision self.now element.now (at_start self.now i element.now.expiry (same_parts (element_at self.now i).parts element.now.parts)) result }
    {
        if self.has_parts(i, &element.parts) {
            Ok(self.decide_again(i, element))
        } else {
            Err(ChangeError::Refused(Why::Overlap { id: self.id_at(i) }))
        }
    }

    /// What an insertion does if the element at place `i` has the same intervals.
    fn decide_again(&self, i: u64, element: &NewElement) -> Decision
        requires { i < length self.now.elements }
        ensures { IsDecision self.now element.now (add_again self.now element.now.expiry i) (Ok result) }
    {
        let id = self.id_at(i);
        if element.expiry.is_none() {
            Decision::Stays { id }
        } else {
            Decision::Renews { place: i, id }
        }
    }

    /// The rules of a new element, if no live element holds the start key. If the end key is the
    /// start key, it isn't looked up again.
    fn columns_apart(
        &self,
        alloc: Global,
        parts: &Parts,
        now: u64,
        full: bool,
        scratch: &mut Scratch,
    ) -> Result<Vec<Listed<Block>>, ChangeError>
        requires fit { parts_fit self.now.kinds parts.now ≡ true }
        requires next { full ≡ false → self.now.next < 2 ^ 64 - 1 }
        requires start { place self.now (start_key parts.now) now ≡ None }
        ensures { IsTest self.now parts.now (by_way self.now parts.now full (place self.now (end_key parts.now) now)) result }
    {
        if is_single(parts.as_slice()) {
            return self.columns_within(alloc, parts, full);
        }
        match self.end_place(parts, now, scratch) {
            Some(i) => Err(ChangeError::Refused(Why::Overlap { id: self.id_at(i) })),
            None => self.columns_within(alloc, parts, full),
        }
    }

    /// The rules of a new element, if no element has the same intervals.
    fn columns_unshared(
        &self,
        alloc: Global,
        parts: &Parts,
        now: u64,
        full: bool,
        scratch: &mut Scratch,
    ) -> Result<Vec<Listed<Block>>, ChangeError>
        requires fit { parts_fit self.now.kinds parts.now ≡ true }
        requires next { full ≡ false → self.now.next < 2 ^ 64 - 1 }
        ensures { IsTest self.now parts.now (by_way self.now parts.now full (sharing_place self.now parts.now now)) result }
    {
        match self.sharing_place(parts, now, scratch) {
            Some(i) => Err(ChangeError::Refused(Why::Overlap { id: self.id_at(i) })),
            None => self.columns_within(alloc, parts, full),
        }
    }

    /// The rules of a new element, if nothing overlaps.
    fn columns_within(
        &self,
        alloc: Global,
        parts: &Parts,
        full: bool,
    ) -> Result<Vec<Listed<Block>>, ChangeError>
        requires fit { parts_fit self.now.kinds parts.now ≡ true }
        requires next { full ≡ false → self.now.next < 2 ^ 64 - 1 }
        ensures { IsTest self.now parts.now (by_size self.now parts.now full) result }
    {
        if full {
            Err(ChangeError::Refused(Why::Full))
        } else {
            self.columns_uncrowded(alloc, parts)
        }
    }

    /// Whether the set has all elements that it may have.
    pub fn is_full(&self) -> bool
        ensures full { result ≡ is_full self.now }
        ensures next { result ≡ false → self.now.next < 2 ^ 64 - 1 }
    {
        self.is_full_with(self.elements.len())
    }

    /// Whether a set of this image's size and next id is full if it has `count` elements.
    pub fn is_full_with(&self, count: u64) -> bool
        ensures full { result ≡ is_full_with self.now count }
        ensures next { result ≡ false → self.now.next < 2 ^ 64 - 1 }
    {
        let many = match self.size {
            Some(size) => size as u64 <= count,
            None => false,
        };
        many || self.next == u64::MAX
    }

    /// The rules of a new element, if no field gets too many.
    fn columns_uncrowded(
        &self,
        alloc: Global,
        parts: &Parts,
    ) -> Result<Vec<Listed<Block>>, ChangeError>
        requires fit { parts_fit self.now.kinds parts.now ≡ true }
        requires next { self.now.next < 2 ^ 64 - 1 }
        ensures { IsTest self.now parts.now (by_rules (crowded_field self.now parts.now)) result }
    {
        let columns = columns(alloc, &self.kinds, parts)?;
        match self.first_crowded(&columns, parts) {
            Some(field) => Err(ChangeError::Refused(Why::RulesFull { field })),
            None => Ok(columns),
        }
    }

    /// The first field that would have too many rules.
    fn first_crowded(&self, columns: &[Listed<Block>], parts: &Parts) -> Option<u32>
        requires { Built (IsColumn self.now.kinds parts.now) columns.now (length self.now.kinds) }
        ensures { result ≡ crowded_field self.now parts.now }
    {
        let _ = parts;
        crowded_field(self.index.fields.as_slice(), columns)
    }
}
