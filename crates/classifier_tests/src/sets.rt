// A set with the memory that a lookup uses. Calls first check that their conditions hold.
ghost use Rattle.std.specs.Prelude.{◌≡◌, true};
ghost use Rattle.set_model.specs.Key.{key_fits};
ghost use Rattle.set_model.specs.SetState.{place};

use pipapo_image::{Added, ChangeError, Scratch, SetImage};
use set_model::{
    Comment, Found, Interval, Key, Kind, Kinds, Memory, NewElement, Parts, fits, parts_fit,
};
use std::alloc::Global;
use std::process::Abort;

#[derive(Drop)]
pub(crate) struct Trial {
    pub(crate) set: SetImage,
    pub(crate) scratch: Scratch,
    pub(crate) alloc: Global,
}

impl Trial {
    /// A set without elements that is disjoint, or not.
    fn new(
        rt: &impl Abort,
        alloc: Global,
        kinds: &[Kind],
        size: Option<u32>,
        disjoint: bool,
    ) -> Result<Trial, Memory> {
        let scratch = Scratch::new(alloc)?;
        match new_set(rt, alloc, kinds, size, disjoint) {
            Ok(set) => Ok(Trial {
                set,
                scratch,
                alloc,
            }),
            Err(memory) => Err(memory),
        }
    }

    /// Starts again with a set without elements, which is disjoint or not.
    pub(crate) fn restart(
        &mut self,
        rt: &impl Abort,
        kinds: &[Kind],
        disjoint: bool,
    ) -> Result<(), Memory> {
        self.set = new_set(rt, self.alloc, kinds, None, disjoint)?;
        Ok(())
    }

    /// Adds an element.
    pub(crate) fn add(
        &mut self,
        rt: &impl Abort,
        parts: &[Interval],
        expiry: Option<u64>,
        now: u64,
    ) -> Result<Added, ChangeError> {
        let element = NewElement {
            parts: parts_of(self.alloc, parts)?,
            expiry,
            comment: Comment::new(self.alloc),
        };
        add_to(
            rt,
            self.alloc,
            &mut self.set,
            &mut self.scratch,
            &element,
            now,
        )
    }

    /// Takes an element out.
    pub(crate) fn delete(&mut self, parts: &[Interval], now: u64) -> Result<u64, ChangeError> {
        let parts = parts_of(self.alloc, parts)?;
        self.set.delete(self.alloc, &parts, now, &mut self.scratch)
    }

    /// Looks a key up, and asserts that the textbook lookup finds the same place.
    pub(crate) fn find(
        &mut self,
        rt: &impl Abort,
        key: &[u128],
        now: u64,
    ) -> Result<Option<Found>, Memory> {
        let key = key_of(self.alloc, key)?;
        Ok(find_in(rt, &self.set, &mut self.scratch, &key, now))
    }

    /// The first element that shares a key with the intervals.
    pub(crate) fn first_sharing(
        &mut self,
        rt: &impl Abort,
        parts: &[Interval],
        now: u64,
    ) -> Result<Option<Found>, Memory> {
        let parts = parts_of(self.alloc, parts)?;
        Ok(sharing_in(rt, &self.set, &mut self.scratch, &parts, now))
    }
}

/// Makes a set without elements, which is disjoint or not, and runs a check on it.
pub(crate) fn on_new_set<F: FnOnce(&mut Trial) -> Result<(), Memory>>(
    rt: &impl Abort,
    alloc: Global,
    kinds: &[Kind],
    size: Option<u32>,
    disjoint: bool,
    check: F,
) -> Result<(), Memory>
    requires { F.IsAlwaysCallable check }
{
    let mut trial = Trial::new(rt, alloc, kinds, size, disjoint)?;
    check(&mut trial)
}

fn new_set(
    rt: &impl Abort,
    alloc: Global,
    kinds: &[Kind],
    size: Option<u32>,
    disjoint: bool,
) -> Result<SetImage, Memory> {
    let kinds = kinds_of(alloc, kinds)?;
    assert!(rt; kinds.len() >= 1 && kinds.len() <= 16);
    SetImage::new(alloc, &kinds, size, disjoint)
}

fn add_to(
    rt: &impl Abort,
    alloc: Global,
    set: &mut SetImage,
    scratch: &mut Scratch,
    element: &NewElement,
    now: u64,
) -> Result<Added, ChangeError> {
    assert!(rt; parts_fit(set.kinds(), &element.parts));
    set.insert(alloc, element, now, scratch)
}

fn find_in(
    rt: &impl Abort,
    set: &SetImage,
    scratch: &mut Scratch,
    key: &Key,
    now: u64,
) -> Option<Found> {
    assert!(rt; fits(set.kinds(), key));
    let found = set.find(key, now, scratch);
    let place = set.plain_place(key, now, scratch);
    assert!(rt; place_of(found) == place);
    assert!(rt; place_by_tables(set, key, now, scratch) == place);
    assert!(rt; plain_place_by_tables(set, key, now, scratch) == place);
    found
}

/// The place of the first live element that holds the key, by the set's tables alone.
fn place_by_tables(set: &SetImage, key: &Key, now: u64, scratch: &mut Scratch) -> Option<u64>
    requires { key_fits set.now.kinds key.now ≡ true }
    ensures { result ≡ place set.now key.now now }
{
    set.index().find(key, now, scratch)
}

/// The same by the textbook lookup.
fn plain_place_by_tables(set: &SetImage, key: &Key, now: u64, scratch: &mut Scratch) -> Option<u64>
    requires { key_fits set.now.kinds key.now ≡ true }
    ensures { result ≡ place set.now key.now now }
{
    set.index().find_plain(key, now, scratch)
}

fn sharing_in(
    rt: &impl Abort,
    set: &SetImage,
    scratch: &mut Scratch,
    parts: &Parts,
    now: u64,
) -> Option<Found> {
    assert!(rt; parts_fit(set.kinds(), parts));
    set.first_sharing(parts, now, scratch)
}

fn place_of(found: Option<Found>) -> Option<u64> {
    match found {
        Some(found) => Some(found.place),
        None => None,
    }
}

fn kinds_of(alloc: Global, kinds: &[Kind]) -> Result<Kinds, Memory> {
    Ok(Kinds::from_vec(Vec::from_slice(alloc, kinds)?))
}

fn parts_of(alloc: Global, parts: &[Interval]) -> Result<Parts, Memory> {
    Ok(Parts::from_vec(alloc, Vec::from_slice(alloc, parts)?))
}

fn key_of(alloc: Global, key: &[u128]) -> Result<Key, Memory> {
    Ok(Key::from_vec(Vec::from_slice(alloc, key)?))
}
