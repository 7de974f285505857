ghost use Rattle.std.specs.Prelude.{◌≡◌, ◌<◌, ◌-◌, ◌*◌, ◌^◌, ℕ, true, List, Option, [], ◌∷◌, ◌++◌, length, map, remove, slice_get, Some, count_by, IfOk, OnOk, OnErr};
ghost use Rattle.set_model.specs.declared.element.Element.{Element};
ghost use Rattle.set_model.specs.Expiry.{renewed_at};
ghost use Rattle.expiry_scan.specs.Expired.{is_expired, is_leaving};
ghost use Rattle.expiry_scan.specs.Soonest.{AreMarks, HasNoneLeaving, DifferAt, AreEnds};

use crate::page_ends::{self, PageEnds, UNKNOWN};
use bit_rows::RankedBits;
use set_model::{Duplicate, Element, Memory};
use shared_pages::{PAGE, Pages};
use std::alloc::Global;
use std::marker::Model;

/// The elements of a set in the order of insertion, in pages that copies share.
///
/// Each page has moments before which none of its elements is expired. So a search for expired
/// elements skips the page until then. It also has one bit per element, which says whether the
/// element left. Contracts see the list.
#[derive(Drop)]
pub struct TimedElements {
    items: Pages<Element>,
    /// Of the first pages, up to the first page that wasn't looked at after elements were added or
    /// moved.
    ends: Vec<PageEnds>,
    /// Elements that are expired at this moment have left.
    passed: Option<u64>,
}

impl Model for TimedElements {
    ghost use Rattle.std.specs.Prelude.{List};
    ghost use Rattle.set_model.specs.declared.element.Element.{Element};
    ghost use Rattle.expiry_scan.specs.Soonest.{AreEnds};

    ghost Value = { List Element };

    ghost view = { λ a. a.items };

    ghost invariant = { λ a. AreEnds a.passed a.items a.ends.items };
}

/// The element with another expiry. It shares the intervals and the comment.
fn renewed(alloc: Global, element: &Element, expiry: Option<u64>) -> Result<Element, Memory>
    ensures { IfOk result (λ other. other ≡ record { id = element.now.id; parts = element.now.parts; expiry = expiry; comment = element.now.comment }) }
{
    let mut other = element.copy(alloc)?;
    other.expiry = expiry;
    Ok(other)
}

/// Makes the moments of the page of place `i` unknown.
fn forget(ends: &mut Vec<PageEnds>, i: u64)
    ensures { (passed : Option ℕ) (elements others : List Element) → AreEnds passed elements ends.old.items → DifferAt i elements others → AreEnds passed others ends.new.items }
{
    let page = i as usize / PAGE;
    if page < ends.len() {
        ends[page] = UNKNOWN;
    }
}

impl TimedElements {
    /// No elements. It takes no memory.
    pub fn new(alloc: Global) -> TimedElements
        ensures { result ≡ [] }
    {
        TimedElements {
            items: Pages::new(alloc),
            ends: Vec::new(alloc),
            passed: None,
        }
    }

    /// How many elements there are.
    pub fn len(&self) -> u64
        ensures { result ≡ length self.now }
    {
        self.items.len()
    }

    /// The element at place `i`.
    pub fn at(&self, i: u64) -> &Element
        requires { i < length self.now }
        ensures { slice_get self.now i ≡ Some result.now }
    {
        self.items.at(i)
    }

    /// Adds an element at the end.
    ///
    /// # Errors
    /// `Memory` if memory runs out. The list is as it was.
    pub fn push(&mut self, element: Element) -> Result<(), Memory>
        requires { length self.old < 2 ^ 64 - 1 }
        ensures ok { OnOk result (self.new ≡ self.old ++ element ∷ []) }
        ensures err { OnErr result (self.new ≡ self.old) }
    {
        let i = self.items.len();
        self.items.push(element)?;
        forget(&mut self.ends, i);
        Ok(())
    }

    /// Removes the element at place `i`. Later elements move down.
    ///
    /// # Errors
    /// `Memory` if memory runs out. The list is as it was.
    pub fn remove(&mut self, i: u64) -> Result<Element, Memory>
        requires { i < length self.old }
        ensures item { IfOk result (λ element. slice_get self.old i ≡ Some element) }
        ensures ok { OnOk result (self.new ≡ remove self.old i) }
        ensures err { OnErr result (self.new ≡ self.old) }
    {
        let element = self.items.remove(i)?;
        self.ends.truncate(i as usize / PAGE);
        Ok(element)
    }

    /// Changes the expiry of the element at place `i`, and nothing else.
    ///
    /// # Errors
    /// `Memory` if memory runs out. The list is as it was.
    pub fn set_expiry(&mut self, alloc: Global, i: u64, expiry: Option<u64>) -> Result<(), Memory>
        requires { i < length self.old }
        ensures ok { OnOk result (self.new ≡ renewed_at self.old i expiry) }
        ensures err { OnErr result (self.new ≡ self.old) }
    {
        let element = renewed(alloc, self.items.at(i), expiry)?;
        self.items.set(i, element)?;
        forget(&mut self.ends, i);
        Ok(())
    }

    /// Whether the moments of a page say that none of its elements is still in the set and expired
    /// at `now`.
    fn is_quiet(&self, page: u64, passed: Option<u64>, now: u64) -> bool
        ensures { result ≡ true → HasNoneLeaving passed now self.now page }
    {
        match self.ends.get(page as usize) {
            None => false,
            Some(ends) => {
                now < ends.all || (now < ends.staying && page_ends::is_by(self.passed, passed))
            }
        }
    }

    /// How many elements are expired at `now`, in milliseconds.
    pub fn count_expired(&self, now: u64) -> u64
        ensures { result ≡ count_by (is_expired now) self.now }
    {
        self.count_leaving(None, now)
    }

    /// How many elements of a set are expired at `now`. The set is this list without the elements
    /// that were expired at `passed`. Both moments are in milliseconds. The call skips each page
    /// whose moment hasn't come.
    pub fn count_leaving(&self, passed: Option<u64>, now: u64) -> u64
        ensures { result ≡ count_by (is_leaving passed now) self.now }
    {
        let mut count = 0;
        'pages: for page in 0..page_ends::pages_of(&self.items) {
            if !self.is_quiet(page, passed, now) {
                count += page_ends::count_in(&self.items, page, passed, now);
            }
        }
        count
    }

    /// Which elements of a page are expired at `now`.
    fn marks_of(&self, page: u64, now: u64) -> [u64; 8]
        requires { 512 * page < length self.now }
        ensures { AreMarks (Some now) self.now page result }
    {
        match (self.ends.get(page as usize), self.passed) {
            (Some(ends), Some(moment)) if moment == now && now < ends.staying => ends.left,
            _ => page_ends::left_in(&self.items, page, Some(now)),
        }
    }

    /// Which elements are expired at `now`, in milliseconds. If these are the elements that left,
    /// and no page changed since [`find_soonest`](TimedElements::find_soonest), the call looks at
    /// no element.
    ///
    /// # Errors
    /// `Memory` if memory runs out.
    pub fn expired_marks(&self, alloc: Global, now: u64) -> Result<RankedBits, Memory>
        ensures { IfOk result (λ marks. marks ≡ map (is_expired now) self.now) }
    {
        let mut words = Vec::new(alloc);
        'pages: for page in 0..page_ends::pages_of(&self.items) {
            words.extend_from_slice(&self.marks_of(page, now))?;
        }
        RankedBits::of_words(alloc, words, self.items.len())
    }

    /// Makes the moments of each page the soonest expiries: of its elements, and of those that
    /// aren't expired at `passed`. The marks become the elements that are expired at `passed`. It
    /// looks only at pages that changed or that an element left.
    pub fn find_soonest(&mut self, passed: Option<u64>)
        ensures { self.new ≡ self.old }
    {
        if !page_ends::is_by(self.passed, passed) {
            self.ends.clear();
        }
        page_ends::find_again(&self.items, &mut self.ends, passed);
        page_ends::find_rest(&self.items, &mut self.ends, passed);
        self.passed = passed;
    }

    /// Lets copies share the elements from now on. It copies no element.
    ///
    /// # Errors
    /// `Memory` if memory runs out. The list is as it was.
    pub fn settle(&mut self) -> Result<(), Memory>
        ensures { self.new ≡ self.old }
    {
        self.items.settle()?;
        Ok(())
    }
}

impl Duplicate for TimedElements {
    fn copy(&self, alloc: Global) -> Result<Self, Memory> {
        Ok(TimedElements {
            items: self.items.copy(alloc)?,
            ends: Vec::from_slice(alloc, self.ends.as_slice())?,
            passed: self.passed,
        })
    }
}
