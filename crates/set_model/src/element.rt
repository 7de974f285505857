ghost use Rattle.std.specs.Prelude.{◌≡◌, ◌-◌, ◌<◌, ◌^◌, length, slice_get, Some, slice_set, unwrap_or};
ghost use Rattle.set_model.specs.Expiry.{lives, renewed_at};

use crate::kind::Interval;
use crate::listed::{Duplicate, Listed};
use crate::memory::Memory;
use crate::shared::Shared;
use std::alloc::Global;

/// One interval per field. Copies share their contents.
pub type Parts = Shared<Interval>;

/// The bytes of an element's comment. Copies share their contents.
pub type Comment = Shared<u8>;

/// An element of a set. It holds each key whose values are each in the interval of their field.
#[derive(Drop)]
pub struct Element {
    /// The number in the order of insertion. No two elements of a set ever have the same.
    pub id: u64,
    /// One interval per field.
    pub parts: Parts,
    /// The moment, in milliseconds, from which on it is expired. `None` if it never expires.
    pub expiry: Option<u64>,
    /// Kept and printed. It doesn't matter for matching.
    pub comment: Comment,
}

impl Duplicate for Element {
    fn copy(&self, alloc: Global) -> Result<Self, Memory> {
        Ok(Element {
            id: self.id,
            parts: self.parts.copy(alloc)?,
            expiry: self.expiry,
            comment: self.comment.copy(alloc)?,
        })
    }
}

/// An element that is to be added. It has no id yet.
#[derive(Drop)]
pub struct NewElement {
    /// One interval per field.
    pub parts: Parts,
    /// The moment, in milliseconds, from which on it is expired. `None` if it never expires.
    pub expiry: Option<u64>,
    /// Kept and printed. It doesn't matter for matching.
    pub comment: Comment,
}

impl Duplicate for NewElement {
    fn copy(&self, alloc: Global) -> Result<Self, Memory> {
        Ok(NewElement {
            parts: self.parts.copy(alloc)?,
            expiry: self.expiry,
            comment: self.comment.copy(alloc)?,
        })
    }
}

/// Whether an element with this expiry is live at `now`, both in milliseconds: it has no expiry, or
/// `now` is before it.
#[inline(always)]
pub fn is_live(expiry: Option<u64>, now: u64) -> bool
    ensures { result ≡ lives expiry now }
{
    match expiry {
        None => true,
        Some(moment) => now < moment,
    }
}

/// The expiry as a moment in milliseconds. Without an expiry it is the last moment, `u64::MAX`.
pub fn expiry_moment(expiry: Option<u64>) -> u64
    ensures { result ≡ unwrap_or expiry (2 ^ 64 - 1) }
{
    expiry.unwrap_or(u64::MAX)
}

/// The elements of a set, in the order of insertion.
pub type Elements = Listed<Element>;

impl Listed<Element> {
    /// Changes the expiry of the element at place `i`, and nothing else. It takes no memory.
    pub fn set_expiry(&mut self, i: u64, expiry: Option<u64>)
        requires { i < length self.old }
        ensures { self.new ≡ renewed_at self.old i expiry }
    {
        self.items[i as usize].expiry = expiry;
    }
}
