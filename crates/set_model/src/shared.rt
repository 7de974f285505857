ghost use Rattle.std.specs.Prelude.{◌≡◌, ◌<◌, List, [], ◌∷◌, ◌++◌, length, IfOk, OnOk, OnErr, slice_get, Some};

use crate::listed::Duplicate;
use crate::memory::Memory;
use std::alloc::Global;
use std::marker::Model;
use std::sync::Arc;

/// The items of a list: in the list itself, or in one place to which all its copies point.
#[derive(Drop)]
pub enum Contents<T> {
    Own(Vec<T>),
    Common(Arc<Vec<T>, Global>),
}

/// A list of plain items whose copies share their contents. Every transaction copies the elements
/// of the sets that it changes, so copies must be cheap. Contracts see the list of its items.
#[derive(Drop)]
pub struct Shared<T> {
    contents: Contents<T>,
    alloc: Global,
}

impl<T> Model for Shared<T> {
    ghost use Rattle.std.specs.Prelude.{List};
    ghost use Rattle.set_model.specs.Contents.{items_of};

    ghost Value = { List T };

    ghost view = { λ a. items_of a.contents };
}

fn appended<T: Copy>(alloc: Global, items: &[T], last: T) -> Result<Vec<T>, Memory>
    ensures { IfOk result (λ all. all.items ≡ items.now ++ last ∷ []) }
{
    let mut all = Vec::from_slice(alloc, items)?;
    all.push(last)?;
    Ok(all)
}

impl<T: Copy> Shared<T> {
    /// The empty list. It takes no memory.
    pub fn new(alloc: Global) -> Self
        ensures { result ≡ [] }
    {
        Shared {
            contents: Contents::Own(Vec::new(alloc)),
            alloc,
        }
    }

    /// The list of a vector's items. It takes no memory.
    pub fn from_vec(alloc: Global, items: Vec<T>) -> Self
        ensures { result ≡ items.items }
    {
        Shared {
            contents: Contents::Own(items),
            alloc,
        }
    }

    /// The items as a slice.
    pub fn as_slice(&self) -> &[T]
        ensures { result.now ≡ self.now }
    {
        match &self.contents {
            Contents::Own(items) => items.as_slice(),
            Contents::Common(items) => items.as_slice(),
        }
    }

    /// How many items there are.
    pub fn len(&self) -> u64
        ensures { result ≡ length self.now }
    {
        self.as_slice().len() as u64
    }

    /// The item at place `i`.
    pub fn at(&self, i: u64) -> &T
        requires { i < length self.now }
        ensures { slice_get self.now i ≡ Some result.now }
    {
        &self.as_slice()[i as usize]
    }

    /// Adds an item at the end of this list. Lists that shared its contents are unchanged. If
    /// memory runs out, so is this list.
    pub fn push(&mut self, item: T) -> Result<(), Memory>
        ensures ok { OnOk result (self.new ≡ self.old ++ item ∷ []) }
        ensures err { OnErr result (self.new ≡ self.old) }
    {
        if let Contents::Own(items) = &mut self.contents {
            items.push(item)?;
            return Ok(());
        }
        let own = appended(self.alloc, self.as_slice(), item)?;
        self.contents = Contents::Own(own);
        Ok(())
    }
}

impl<T: Copy> Duplicate for Shared<T> {
    fn copy(&self, alloc: Global) -> Result<Self, Memory> {
        let contents = match &self.contents {
            Contents::Own(items) if items.is_empty() => Contents::Own(Vec::new(alloc)),
            Contents::Own(items) => Contents::Common(Arc::new(
                alloc,
                Vec::from_slice(alloc, items.as_slice())?,
            )?),
            Contents::Common(items) => Contents::Common(Arc::try_clone(items)?),
        };
        Ok(Shared { contents, alloc })
    }
}
