//! When the elements of a set expire.
ghost use Rattle.std.specs.Prelude.{◌≡◌, ◌<◌, ◌-◌, ◌^◌};
ghost use Rattle.stat_answer.specs.Figures.{aged, ages_of, earlier as earlier_of, is_expiring as expires_later};

use expiry_scan::TimedElements;
use set_model::{Element, is_live};

/// The elements of a set that are live at a moment and expire later.
#[derive(Clone, Copy)]
pub(crate) struct Ages {
    /// How many they are.
    pub(crate) expiring: u64,
    /// The earliest of their expiries, in milliseconds.
    pub(crate) next: Option<u64>,
}

/// The earlier of two moments, of those that there are.
fn earlier(one: Option<u64>, other: Option<u64>) -> Option<u64>
    ensures { result ≡ earlier_of one other }
{
    match (one, other) {
        (None, other) => other,
        (Some(one), None) => Some(one),
        (Some(one), Some(other)) => Some(one.min(other)),
    }
}

/// Whether an element is live at a moment, and expires at a later one.
fn is_expiring(element: &Element, now: u64) -> bool
    ensures { result ≡ expires_later now element.now }
{
    is_live(element.expiry, now) && element.expiry.is_some()
}

/// The same with one element more.
fn with_element(ages: Ages, element: &Element, now: u64) -> Ages
    requires { ages.expiring < 2 ^ 64 - 1 }
    ensures { result ≡ aged now ages element.now }
{
    if is_expiring(element, now) {
        Ages {
            expiring: ages.expiring + 1,
            next: earlier(ages.next, element.expiry),
        }
    } else {
        ages
    }
}

/// What the elements of a set show at a moment, in milliseconds.
pub(crate) fn ages_at(elements: &TimedElements, now: u64) -> Ages
    ensures { result ≡ ages_of now elements.now }
{
    let mut ages = Ages {
        expiring: 0,
        next: None,
    };
    'elements: for i in 0..elements.len() {
        ages = with_element(ages, elements.at(i), now);
    }
    ages
}
