ghost use Rattle.std.specs.Prelude.{◌≡◌, ◌≤◌, ◌<◌, ◌+◌, ◌*◌, ◌^◌, ◌-◌, ℕ, Some, min, not, take, length, count_by, slice_get};
ghost use Rattle.set_model.specs.declared.element.Element.{Element};
ghost use Rattle.bit_rows.specs.Row.{bit};
ghost use Rattle.expiry_scan.specs.Expired.{stays, is_leaving, is_by};
ghost use Rattle.expiry_scan.specs.Soonest.{end_of, AreMarks, ArePageEnds, AreEnds};

use crate::expired;
use set_model::{Element, Memory, expiry_moment};
use shared_pages::Pages;

/// How many elements a page has.
const PAGE: u64 = shared_pages::PAGE as u64;

/// How many words of marks a page has.
const WORDS: usize = 8;

/// What is known of a page of elements, given a moment by which elements left. Moments are in
/// milliseconds.
#[derive(Clone, Copy)]
pub(crate) struct PageEnds {
    /// A moment before which no element in the page is expired.
    pub(crate) all: u64,
    /// A moment before which no element that is still in the set is expired.
    pub(crate) staying: u64,
    /// Which elements left by that moment: place `64 w + k` of the page is bit `k` of word `w`.
    pub(crate) left: [u64; WORDS],
}

/// The values of a page that has changed. Each moment may have come, until the page is looked at
/// again.
pub(crate) const UNKNOWN: PageEnds = PageEnds {
    all: 0,
    staying: 0,
    left: [0; WORDS],
};

/// Whether one moment by which elements left is no later than another.
pub(crate) fn is_by(one: Option<u64>, other: Option<u64>) -> bool
    ensures { result ≡ is_by one other }
{
    match (one, other) {
        (None, _) => true,
        (Some(_), None) => false,
        (Some(p), Some(q)) => p <= q,
    }
}

/// Whether an element stays in a set from which the elements that were expired at `passed` have
/// left.
fn stays(element: &Element, passed: Option<u64>) -> bool
    ensures { result ≡ stays passed element.now }
{
    match passed {
        None => true,
        Some(moment) => !expired(element.expiry, moment),
    }
}

/// The moment from which on an element is expired, if it stays in the set.
fn end_of_staying(element: &Element, passed: Option<u64>) -> u64
    ensures { result ≡ end_of passed element.now }
{
    if stays(element, passed) {
        expiry_moment(element.expiry)
    } else {
        u64::MAX
    }
}

/// Whether an element is still in the set and is expired at `now`.
fn is_leaving(element: &Element, passed: Option<u64>, now: u64) -> bool
    ensures { result ≡ is_leaving passed now element.now }
{
    stays(element, passed) && expired(element.expiry, now)
}

/// How many pages the elements have.
pub(crate) fn pages_of(elements: &Pages<Element>) -> u64
    ensures all { length elements.now ≤ 512 * result }
    ensures few { 512 * result < length elements.now + 512 }
    ensures fit { length elements.now < 2 ^ 64 }
{
    elements.len().div_ceil(PAGE)
}

/// The first place of a page, and the place after its last one.
fn places_of(elements: &Pages<Element>, page: u64) -> (u64, u64)
    requires { 512 * page < length elements.now }
    ensures first { result.0 ≡ 512 * page }
    ensures end { result.1 ≡ min (512 * page + 512) (length elements.now) }
    ensures fit { 512 * page + 512 ≤ 2 ^ 64 }
{
    let count = elements.len();
    let from = page * PAGE;
    (from, from + (count - from).min(PAGE))
}

/// Which of the 64 elements from place `from` on left by `passed`. Bit 0 is the first.
fn left_word(elements: &Pages<Element>, from: u64, passed: Option<u64>) -> u64
    ensures { (k : ℕ) (e : Element) → k < 64 → slice_get elements.now (from + k) ≡ Some e → bit result k ≡ not (stays passed e) }
{
    let mut word = 0;
    'elements: for k in 0..elements.len().saturating_sub(from).min(64) {
        if !stays(elements.at(from + k), passed) {
            word |= 1u64 << k;
        }
    }
    word
}

/// Which elements of a page left by `passed`.
pub(crate) fn left_in(elements: &Pages<Element>, page: u64, passed: Option<u64>) -> [u64; WORDS]
    requires { 512 * page < length elements.now }
    ensures { AreMarks passed elements.now page result }
{
    let (from, _) = places_of(elements, page);
    let mut words = [0; WORDS];
    'words: for w in 0..WORDS {
        words[w] = left_word(elements, from + 64 * w as u64, passed);
    }
    words
}

/// The soonest expiries of the elements of a page, and which of them left.
pub(crate) fn page_ends(elements: &Pages<Element>, page: u64, passed: Option<u64>) -> PageEnds
    requires { 512 * page < length elements.now }
    ensures { ArePageEnds passed elements.now page result }
{
    let (from, to) = places_of(elements, page);
    let mut ends = PageEnds {
        all: u64::MAX,
        staying: u64::MAX,
        left: [0; WORDS],
    };
    'elements: for i in from..to {
        let element = elements.at(i);
        ends.all = ends.all.min(expiry_moment(element.expiry));
        ends.staying = ends.staying.min(end_of_staying(element, passed));
    }
    if ends.all <= passed.unwrap_or(0) {
        ends.left = left_in(elements, page, passed);
    }
    ends
}

/// Finds the moments of pages anew which changed, or which an element left.
pub(crate) fn find_again(elements: &Pages<Element>, ends: &mut Vec<PageEnds>, passed: Option<u64>)
    requires { AreEnds passed elements.now ends.old.items }
    ensures { AreEnds passed elements.now ends.new.items }
{
    'pages: for page in 0..ends.len() {
        if ends[page].staying <= passed.unwrap_or(0) {
            ends[page] = page_ends(elements, page as u64, passed);
        }
    }
}

/// Finds the moments of the pages that have none yet, until memory runs out.
pub(crate) fn find_rest(elements: &Pages<Element>, ends: &mut Vec<PageEnds>, passed: Option<u64>)
    requires { AreEnds passed elements.now ends.old.items }
    ensures { AreEnds passed elements.now ends.new.items }
{
    'pages: for page in ends.len() as u64..pages_of(elements) {
        if ends.push(page_ends(elements, page, passed)).is_err() {
            break;
        }
    }
}

/// How many of the elements of a page are still in the set and are expired at `now`.
pub(crate) fn count_in(elements: &Pages<Element>, page: u64, passed: Option<u64>, now: u64) -> u64
    requires { 512 * page < length elements.now }
    ensures { count_by (is_leaving passed now) (take (512 * page) elements.now) + result ≡ count_by (is_leaving passed now) (take (512 * page + 512) elements.now) }
{
    let (from, to) = places_of(elements, page);
    let mut count = 0;
    'elements: for i in from..to {
        if is_leaving(elements.at(i), passed, now) {
            count += 1;
        }
    }
    count
}
