//! Which elements of a set's list are expired, found by moments that each page of elements keeps.
//!
//! [`TimedElements`] has the elements of a set, in pages of 512 that copies share. Each page has
//! two moments in milliseconds, and one bit per element:
//!
//! - Before the first moment no element of the page is expired.
//! - Before the second moment no element that is still in the set is expired.
//! - The bit says whether the element left the set.
//!
//! If the elements of a page expire at 1,000, 30,000 and 60,000 and the first one has left, the
//! moments are 1,000 and 30,000. A commit at 20,000 skips the page: no element of it leaves now. A
//! commit at 30,000 looks at its elements.
//!
//! A change makes the moments of its page unknown, and `find_soonest` finds them anew. A search for
//! expired elements takes no memory.
//!
//! **Definitions:** `specs/Expired.antt` and `Soonest.antt`. **Theory:** docs/architecture.md, "The
//! way of a change". **Proofs:** docs/proofs.md, "A set's tables and image (`set_tables`,
//! `mapping_table`, `pipapo_image`)".
#![tactic(auto)]

ghost use Rattle.std.specs.Prelude.{◌≡◌, ◌<◌, not, length, IfSome, position, count_by};
ghost use Rattle.set_model.specs.Expiry.{lives};
ghost use Rattle.expiry_scan.specs.Expired.{is_expired, next_place};

mod page_ends;
mod timed;

use set_model::{Element, Elements, is_live};
pub use timed::TimedElements;

/// Whether an expiry has come at `now`, both in milliseconds: there is an expiry, and it is at most
/// `now`.
#[inline(always)]
pub fn expired(expiry: Option<u64>, now: u64) -> bool
    ensures { result ≡ not (lives expiry now) }
{
    !is_live(expiry, now)
}

/// The least place, not below `from`, of an element that is expired at `now`, in milliseconds.
/// `None` if there is none.
pub fn next_expired(elements: &Elements, from: u64, now: u64) -> Option<u64>
    ensures { result ≡ next_place elements.now from now }
{
    if from >= elements.len() {
        return None;
    }
    match first_expired(&elements.as_slice()[from as usize..], now) {
        Some(k) => Some(from + k as u64),
        None => None,
    }
}

fn first_expired(elements: &[Element], now: u64) -> Option<usize>
    ensures value { result ≡ position (is_expired now) elements.now }
    ensures within { IfSome result (λ i. i < length elements.now) }
{
    elements.iter().position(|e| expired(e.expiry, now))
}

/// How many of the elements are expired at `now`, in milliseconds.
pub fn count_expired(elements: &Elements, now: u64) -> u64
    ensures { result ≡ count_by (is_expired now) elements.now }
{
    elements
        .as_slice()
        .iter()
        .filter(|e| expired(e.expiry, now))
        .count() as u64
}
