ghost use Rattle.std.specs.Prelude.{◌≡◌, ◌<◌, ◌^◌, List, [], ◌∷◌, ◌++◌, length, IfOk, OnOk, OnErr, slice_get, remove, Some};

use crate::memory::Memory;
use std::alloc::Global;
use std::marker::Model;

/// A value that can be copied, if there is memory for the copy.
pub trait Duplicate {
    /// A copy of the value.
    fn copy(&self, alloc: Global) -> Result<Self, Memory>
        ensures { IfOk result (λ other. other ≡ self.now) };
}

/// A list that grows at its end. Contracts see it as the list of its items.
#[derive(Drop)]
pub struct Listed<T> {
    pub(crate) items: Vec<T>,
}

impl<T> Model for Listed<T> {
    ghost Value = { List T };

    ghost view = { λ a. a.items.items };
}

impl<T> Listed<T> {
    ghost use Rattle.std.specs.Borrow.{sem};
    ghost use Rattle.set_model.specs.Lent.{LendsItems};

    /// The empty list. It takes no memory.
    pub fn new(alloc: Global) -> Self
        ensures { result ≡ [] }
    {
        Listed {
            items: Vec::new(alloc),
        }
    }

    /// The list of a vector's items. It takes no memory.
    pub fn from_vec(items: Vec<T>) -> Self
        ensures { result ≡ items.items }
    {
        Listed { items }
    }

    /// How many items there are.
    #[inline(always)]
    pub fn len(&self) -> u64
        ensures { result ≡ length self.now }
    {
        self.items.len() as u64
    }

    /// The item at place `i`.
    #[inline(always)]
    pub fn at(&self, i: u64) -> &T
        requires { i < length self.now }
        ensures { slice_get self.now i ≡ Some result.now }
    {
        &self.items[i as usize]
    }

    /// The items as a slice.
    #[inline(always)]
    pub fn as_slice(&self) -> &[T]
        ensures { result.now ≡ self.now }
    {
        self.items.as_slice()
    }

    /// The items as a slice, to change them in place.
    #[inline(always)]
    pub fn as_mut_slice(&mut self) -> &mut [T]
        ensures value { result.now ≡ self.old }
        ensures* writes_back { sem 𝓛 (LendsItems T.row self.entry result) }
    {
        self.items.as_mut_slice()
    }

    /// Adds an item at the end. If memory runs out, the list is unchanged.
    pub fn push(&mut self, item: T) -> Result<(), Memory>
    where
        T: Drop,
        ensures ok { OnOk result (self.new ≡ self.old ++ item ∷ []) }
        ensures err { OnErr result (self.new ≡ self.old) }
    {
        self.items.push(item)?;
        Ok(())
    }

    /// Removes the item at place `i`. Later items move down. It takes no memory.
    pub fn remove(&mut self, i: u64) -> T
        requires { i < length self.old }
        ensures item { slice_get self.old i ≡ Some result }
        ensures others { self.new ≡ remove self.old i }
    {
        self.items.remove(i as usize)
    }
}

impl<T: Duplicate + Drop> Duplicate for Listed<T> {
    fn copy(&self, alloc: Global) -> Result<Self, Memory> {
        let mut other = Listed::new(alloc);
        for item in &self.items {
            other.push(item.copy(alloc)?)?;
        }
        Ok(other)
    }
}
