ghost use Rattle.std.specs.Prelude.{◌≡◌, ◌<◌, ◌≤◌, true, false, [], ◌∷◌, ◌++◌, length, replicate, max, vec_capacity, IfOk, OnOk, OnErr, slice_get, slice_set, remove, Some};
ghost use Rattle.set_model.specs.Contents.{items_of, is_own};
ghost use Rattle.shared_pages.specs.Room.{room_of};

use crate::PAGE;
use set_model::{Contents, Duplicate, Memory};
use std::alloc::Global;
use std::marker::Model;
use std::mem;
use std::sync::Arc;

/// Some items, which copies share once they are common. Contracts see the items, and whether they
/// are this page's own. A page's own items take memory for at most 512 items, or for as many as they
/// are if these are more.
#[derive(Drop)]
pub struct Page<T> {
    contents: Contents<T>,
}

impl<T> Model for Page<T> {
    ghost use Rattle.shared_pages.specs.Paged.{PageOf};
    ghost use Rattle.set_model.specs.Contents.{items_of, is_own};
    ghost use Rattle.shared_pages.specs.Room.{TakesNoMore};

    ghost Value = { PageOf T };

    ghost view = { λ a. record { items = items_of a.contents; own = is_own a.contents } };

    ghost invariant = { λ a. TakesNoMore a.contents };
}

/// A copy of the items, with room for a whole page.
fn copied<T: Duplicate + Drop>(alloc: Global, items: &[T]) -> Result<Vec<T>, Memory>
    ensures items { IfOk result (λ all. all.items ≡ items.now) }
    ensures room { IfOk result (λ all. vec_capacity all ≡ max 512 (length items.now)) }
{
    let mut all = Vec::with_capacity(alloc, PAGE.max(items.len()))?;
    'items: for item in items {
        all.push_reserved(item.copy(alloc)?);
    }
    Ok(all)
}

/// A copy of plain items in one piece, without room for others.
fn copied_plain<T: Copy + Drop>(alloc: Global, items: &[T]) -> Result<Vec<T>, Memory>
    ensures items { IfOk result (λ all. all.items ≡ items.now) }
    ensures room { IfOk result (λ all. vec_capacity all ≡ length items.now) }
{
    let all = Vec::from_slice(alloc, items)?;
    if all.capacity() == items.len() {
        return Ok(all);
    }
    // The copy has exactly that room, but no clause of `from_slice` says so.
    copied_singly(alloc, items)
}

/// A copy of plain items, one by one, without room for others.
fn copied_singly<T: Copy + Drop>(alloc: Global, items: &[T]) -> Result<Vec<T>, Memory>
    ensures items { IfOk result (λ all. all.items ≡ items.now) }
    ensures room { IfOk result (λ all. vec_capacity all ≡ length items.now) }
{
    let mut all = Vec::with_capacity(alloc, items.len())?;
    'items: for item in items {
        all.push_reserved(*item);
    }
    Ok(all)
}

/// Takes room for one more item if there is none. The room doubles, but not beyond a page.
fn make_room<T>(items: &mut Vec<T>) -> Result<(), Memory>
    requires few { length items.old.items < 512 }
    requires within { vec_capacity items.old ≤ 512 }
    ensures items { items.new.items ≡ items.old.items }
    ensures room { OnOk result (length items.new.items < vec_capacity items.new) }
    ensures within { vec_capacity items.new ≤ 512 }
{
    let len = items.len();
    if len == items.capacity() {
        items.reserve_exact(len.max(4).min(PAGE - len))?;
    }
    Ok(())
}

/// Moves the items to a place that copies can share. If memory runs out, they stay as they are.
fn settled<T: Drop>(alloc: Global, items: Vec<T>) -> (Contents<T>, Result<(), Memory>)
    ensures items { items_of result.0 ≡ items.items }
    ensures room { room_of result.0 ≤ vec_capacity items }
    ensures common { OnOk result.1 (is_own result.0 ≡ false) }
{
    match Arc::new(alloc, items) {
        Ok(common) => (Contents::Common(common), Ok(())),
        Err(refused) => (Contents::Own(refused.value), Err(Memory)),
    }
}

impl<T> Page<T> {
    /// The empty page. It takes no memory.
    pub fn new(alloc: Global) -> Self
        ensures { result.items ≡ [] }
    {
        Page {
            contents: Contents::Own(Vec::new(alloc)),
        }
    }

    /// The items as a slice.
    #[inline(always)]
    pub fn as_slice(&self) -> &[T]
        ensures { result.now ≡ self.now.items }
    {
        match &self.contents {
            Contents::Own(items) => items.as_slice(),
            Contents::Common(items) => items.as_slice(),
        }
    }

    /// Removes item `i` from the page's own items, of which there are at most 512. Later items move
    /// down. It takes no memory.
    pub fn remove(&mut self, i: usize) -> T
        requires own { self.old.own ≡ true }
        requires few { length self.old.items ≤ 512 }
        requires place { i < length self.old.items }
        ensures item { slice_get self.old.items i ≡ Some result }
        ensures others { self.new.items ≡ remove self.old.items i }
        ensures own { self.new.own ≡ true }
    {
        match &mut self.contents {
            Contents::Own(items) => items.remove(i),
            Contents::Common(_) => unreachable!(),
        }
    }

    /// Removes item `i` from the page's own items, and adds `next` at the end. It takes no memory.
    pub fn pass(&mut self, i: usize, next: T) -> T
        requires own { self.old.own ≡ true }
        requires place { i < length self.old.items }
        ensures item { slice_get self.old.items i ≡ Some result }
        ensures others { self.new.items ≡ remove self.old.items i ++ next ∷ [] }
        ensures own { self.new.own ≡ true }
    {
        match &mut self.contents {
            Contents::Own(items) => {
                let item = items.remove(i);
                items.push_reserved(next);
                item
            }
            Contents::Common(_) => unreachable!(),
        }
    }
}

impl<T: Drop> Page<T> {
    /// Lets copies share the items from now on. It copies no item.
    ///
    /// # Errors
    /// `Memory` if memory runs out. The items are as they were.
    pub fn settle(&mut self, alloc: Global) -> Result<(), Memory>
        ensures items { self.new.items ≡ self.old.items }
        ensures common { OnOk result (self.new.own ≡ false) }
    {
        if let Contents::Own(items) = &mut self.contents {
            let own = mem::replace(items, Vec::new(alloc));
            let (contents, done) = settled(alloc, own);
            self.contents = contents;
            return done;
        }
        Ok(())
    }
}

impl<T: Duplicate + Drop> Page<T> {
    /// Makes the items this page's own. They are copied if others may share them.
    ///
    /// # Errors
    /// `Memory` if memory runs out. The page is as it was.
    pub fn own(&mut self, alloc: Global) -> Result<(), Memory>
        ensures items { self.new.items ≡ self.old.items }
        ensures own { OnOk result (self.new.own ≡ true) }
    {
        if let Contents::Own(_) = &self.contents {
            return Ok(());
        }
        let items = copied(alloc, self.as_slice())?;
        self.contents = Contents::Own(items);
        Ok(())
    }

    /// Adds an item at the end of this page. Copies are unchanged. The page must have fewer than
    /// 512 items.
    ///
    /// # Errors
    /// `Memory` if memory runs out. The items are as they were.
    pub fn push(&mut self, alloc: Global, item: T) -> Result<(), Memory>
        requires { length self.old.items < 512 }
        ensures ok { OnOk result (self.new.items ≡ self.old.items ++ item ∷ []) }
        ensures err { OnErr result (self.new.items ≡ self.old.items) }
    {
        if let Contents::Own(items) = &mut self.contents {
            make_room(items)?;
            items.push_reserved(item);
            return Ok(());
        }
        let mut items = copied(alloc, self.as_slice())?;
        items.push_reserved(item);
        self.contents = Contents::Own(items);
        Ok(())
    }

    /// Overwrites item `i` of this page. Copies are unchanged.
    ///
    /// # Errors
    /// `Memory` if memory runs out. The items are as they were.
    pub fn set(&mut self, alloc: Global, i: usize, item: T) -> Result<(), Memory>
        requires { i < length self.old.items }
        ensures ok { OnOk result (self.new.items ≡ slice_set self.old.items i item) }
        ensures err { OnErr result (self.new.items ≡ self.old.items) }
    {
        if let Contents::Own(items) = &mut self.contents {
            items[i] = item;
            return Ok(());
        }
        let mut items = copied(alloc, self.as_slice())?;
        items[i] = item;
        self.contents = Contents::Own(items);
        Ok(())
    }

    /// A copy of the page. It counts one reference if the items are common. Otherwise it copies
    /// them one by one.
    pub fn copy(&self, alloc: Global) -> Result<Self, Memory>
        ensures { IfOk result (λ other. other.items ≡ self.now.items) }
    {
        let contents = match &self.contents {
            Contents::Own(items) => Contents::Own(copied(alloc, items.as_slice())?),
            Contents::Common(items) => Contents::Common(Arc::try_clone(items)?),
        };
        Ok(Page { contents })
    }
}

// Plain items are copied in one piece.
impl<T: Copy + Drop> Page<T> {
    /// A page with its own copy of these items.
    ///
    /// # Errors
    /// `Memory` if memory runs out.
    pub fn from_slice(alloc: Global, items: &[T]) -> Result<Self, Memory>
        ensures items { IfOk result (λ page. page.items ≡ items.now) }
        ensures own { IfOk result (λ page. page.own ≡ true) }
    {
        Ok(Page {
            contents: Contents::Own(copied_plain(alloc, items)?),
        })
    }

    /// A page with `n` times this item, its own.
    ///
    /// # Errors
    /// `Memory` if memory runs out.
    pub fn filled(alloc: Global, item: T, n: usize) -> Result<Self, Memory>
        ensures items { IfOk result (λ page. page.items ≡ replicate n item) }
        ensures own { IfOk result (λ page. page.own ≡ true) }
    {
        let mut items = Vec::with_capacity(alloc, n)?;
        'items: for _ in 0..n {
            items.push_reserved(item);
        }
        Ok(Page {
            contents: Contents::Own(items),
        })
    }

    /// Hands out the page's own items. It takes no memory. The vector has room for at most 512
    /// items, or for as many as it has if these are more.
    pub fn into_vec(self) -> Vec<T>
        requires { self.own ≡ true }
        ensures items { result.items ≡ self.items }
        ensures room { vec_capacity result ≤ max 512 (length self.items) }
    {
        let Page { contents } = self;
        match contents {
            Contents::Own(items) => items,
            Contents::Common(_) => unreachable!(),
        }
    }

    /// Overwrites item `i` of the page's own items. It takes no memory.
    #[inline(always)]
    pub fn put(&mut self, i: usize, item: T)
        requires own { self.old.own ≡ true }
        requires place { i < length self.old.items }
        ensures items { self.new.items ≡ slice_set self.old.items i item }
        ensures own { self.new.own ≡ true }
    {
        match &mut self.contents {
            Contents::Own(items) => items[i] = item,
            Contents::Common(_) => unreachable!(),
        }
    }

    /// Makes the items this page's own. They are copied if others may share them.
    ///
    /// # Errors
    /// `Memory` if memory runs out. The page is as it was.
    pub fn own_plain(&mut self, alloc: Global) -> Result<(), Memory>
        ensures items { self.new.items ≡ self.old.items }
        ensures own { OnOk result (self.new.own ≡ true) }
        ensures err { OnErr result (self.new ≡ self.old) }
    {
        if let Contents::Own(_) = &self.contents {
            return Ok(());
        }
        let items = copied_plain(alloc, self.as_slice())?;
        self.contents = Contents::Own(items);
        Ok(())
    }

    /// A copy of the page. It counts one reference if the items are common. Otherwise it copies
    /// them in one piece.
    pub fn copy_plain(&self, alloc: Global) -> Result<Self, Memory>
        ensures { IfOk result (λ other. other ≡ self.now) }
    {
        let contents = match &self.contents {
            Contents::Own(items) => Contents::Own(copied_plain(alloc, items.as_slice())?),
            Contents::Common(items) => Contents::Common(Arc::try_clone(items)?),
        };
        Ok(Page { contents })
    }
}
