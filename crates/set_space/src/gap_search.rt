//! The search for an element of a set among those of its image, some of which left.
ghost use Rattle.std.specs.Prelude.{◌≡◌, ◌+◌, ◌<◌, ◌≤◌, ◌↔◌, IsTrue, length, slice_get};
ghost use Rattle.set_space.specs.LazyImage.{set_of};
ghost use Rattle.set_space.specs.KeptSet.{gap_marks, gaps_before, IsBetween};

use crate::kept_set::gaps_before;
use crate::lazy_image::LazyImage;
use bit_rows::RankedBits;

/// Two places of an image. The element that is searched for comes at `low` or later, and before `high`.
struct Bracket {
    low: u64,
    high: u64,
}

/// Whether at most `i` elements of the set come before a place of the image.
#[inline]
fn has_few_before(lazy: &LazyImage, gaps: &RankedBits, i: u64, place: u64) -> bool
    requires gaps { gaps.now ≡ gap_marks lazy.now.passed lazy.now.image }
    requires within { place ≤ length lazy.now.image.elements }
    ensures { IsTrue result ↔ (place ≤ i + gaps_before lazy.now.passed lazy.now.image place) }
{
    place - gaps_before(gaps, place) <= i
}

/// Looks from `low` on, in steps that double. So the time depends on how far away the element is.
fn gallop(lazy: &LazyImage, gaps: &RankedBits, i: u64, low: u64) -> Bracket
    requires gaps { gaps.now ≡ gap_marks lazy.now.passed lazy.now.image }
    requires element { i < length (set_of lazy.now).elements }
    requires few { low ≤ i + gaps_before lazy.now.passed lazy.now.image low }
    requires within { low < length lazy.now.image.elements }
    ensures { IsBetween lazy.now.passed lazy.now.image i result.low result.high }
{
    let count = lazy.image.elements().len();
    let mut low = low;
    let mut step = 1;
    'steps: while step < count - low {
        let high = low + step;
        if !has_few_before(lazy, gaps, i, high) {
            return Bracket { low, high };
        }
        low = high;
        step *= 2;
    }
    Bracket { low, high: count }
}

/// The place of the image that a bracket leads to, by halves.
fn narrowed(lazy: &LazyImage, gaps: &RankedBits, i: u64, bracket: Bracket) -> u64
    requires gaps { gaps.now ≡ gap_marks lazy.now.passed lazy.now.image }
    requires between { IsBetween lazy.now.passed lazy.now.image i bracket.low bracket.high }
    ensures { IsBetween lazy.now.passed lazy.now.image i result (result + 1) }
{
    let Bracket { mut low, mut high } = bracket;
    'halves: while low + 1 < high {
        let middle = low + (high - low) / 2;
        if has_few_before(lazy, gaps, i, middle) {
            low = middle;
        } else {
            high = middle;
        }
    }
    low
}

/// The place from which the search goes on: `near`, unless the element comes before it.
fn beginning(lazy: &LazyImage, gaps: &RankedBits, i: u64, near: u64) -> u64
    requires gaps { gaps.now ≡ gap_marks lazy.now.passed lazy.now.image }
    requires element { i < length (set_of lazy.now).elements }
    ensures few { result ≤ i + gaps_before lazy.now.passed lazy.now.image result }
    ensures within { result < length lazy.now.image.elements }
{
    if near < lazy.image.elements().len() && has_few_before(lazy, gaps, i, near) {
        near
    } else {
        i
    }
}

/// The place in the image of the element at place `i` of the set.
pub(crate) fn place_in_image(lazy: &LazyImage, gaps: &RankedBits, i: u64, near: u64) -> u64
    requires gaps { gaps.now ≡ gap_marks lazy.now.passed lazy.now.image }
    requires element { i < length (set_of lazy.now).elements }
    ensures within { result < length lazy.now.image.elements }
    ensures same { slice_get (set_of lazy.now).elements i ≡ slice_get lazy.now.image.elements result }
{
    let low = beginning(lazy, gaps, i, near);
    narrowed(lazy, gaps, i, gallop(lazy, gaps, i, low))
}
