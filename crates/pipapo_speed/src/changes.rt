use crate::run::{Fault, new_set};
use crate::workload::element_at;
use pipapo_image::{Scratch, SetImage};
use set_model::{Memory, NewElement, Parts, parts_fit};
use std::alloc::Global;

/// A set whose copies are changed.
#[derive(Drop)]
struct Full {
    set: SetImage,
    scratch: Scratch,
    alloc: Global,
}

/// Builds a set of all elements but the last, and changes a copy of it `rounds` times. Returns how
/// many elements the last copy then has.
pub(crate) fn run(
    alloc: Global,
    kinds: &[u32],
    elements: &[u64],
    rounds: u32,
    change: u32,
) -> Result<u64, Fault> {
    let mut full = Full::new(alloc, kinds, false)?;
    full.build_and_change(elements, kinds.len(), rounds, change)
}

/// How many elements of a workload aren't in the disjoint set at first, but are added to it.
const KEPT_BACK: usize = 1_000;

/// Builds a disjoint set of all elements but the last thousand, and adds the first `count` of
/// these. Returns how many elements it then has.
pub(crate) fn run_disjoint(
    alloc: Global,
    kinds: &[u32],
    elements: &[u64],
    count: u32,
) -> Result<u64, Fault> {
    let mut full = Full::new(alloc, kinds, true)?;
    full.build_and_add(elements, kinds.len(), count)
}

/// How many elements of so many fields a workload has.
fn count_of(elements: &[u64], fields: usize) -> usize {
    elements.len() / fields.saturating_mul(4).max(1)
}

/// The place of the element to change: the last one is added, one from the middle is deleted.
fn place_of(count: usize, change: u32) -> usize {
    if change == 1 {
        count.saturating_sub(1)
    } else {
        count / 2
    }
}

impl Full {
    fn new(alloc: Global, kinds: &[u32], disjoint: bool) -> Result<Full, Fault> {
        let scratch = Scratch::new(alloc)?;
        match new_set(alloc, kinds, disjoint) {
            Ok(set) => Ok(Full {
                set,
                scratch,
                alloc,
            }),
            Err(fault) => Err(fault),
        }
    }

    /// Adds all elements but the last, and changes a copy `rounds` times. Returns how many elements the last copy then has.
    fn build_and_change(
        &mut self,
        elements: &[u64],
        fields: usize,
        rounds: u32,
        change: u32,
    ) -> Result<u64, Fault> {
        let count = count_of(elements, fields);
        self.fill(elements, fields, count.saturating_sub(1))?;
        let place = place_of(count, change);
        let element = element_at(self.alloc, elements, fields, place, None)?;
        Ok(self.change_copies(&element, rounds, change)?)
    }

    /// Adds all elements but the last thousand, and then the first `count` of these. Returns how many elements the set then has.
    fn build_and_add(&mut self, elements: &[u64], fields: usize, count: u32) -> Result<u64, Fault> {
        let all = count_of(elements, fields);
        let built = all.saturating_sub(KEPT_BACK);
        let last = built.saturating_add(count as usize).min(all);
        self.fill(elements, fields, built)?;
        self.add(elements, fields, built, last)?;
        Ok(self.set.elements().len())
    }

    /// Adds the first `count` elements at moment 0, and settles them, as a commit does. Every tenth expires at moment 1.
    fn fill(&mut self, elements: &[u64], fields: usize, count: usize) -> Result<(), Memory> {
        for e in 0..count {
            let expiry = if e % 10 == 0 { Some(1) } else { None };
            self.add_one(elements, fields, e, expiry)?;
        }
        self.set.settle()
    }

    /// Adds the elements from number `from` up to `to` at moment 0.
    fn add(
        &mut self,
        elements: &[u64],
        fields: usize,
        from: usize,
        to: usize,
    ) -> Result<(), Memory> {
        for e in from..to {
            self.add_one(elements, fields, e, None)?;
        }
        Ok(())
    }

    /// Adds element `e` at moment 0, if it isn't refused.
    fn add_one(
        &mut self,
        elements: &[u64],
        fields: usize,
        e: usize,
        expiry: Option<u64>,
    ) -> Result<(), Memory> {
        let element = element_at(self.alloc, elements, fields, e, expiry)?;
        insert(self.alloc, &mut self.set, &element, &mut self.scratch);
        Ok(())
    }

    fn change_copies(
        &mut self,
        element: &NewElement,
        rounds: u32,
        change: u32,
    ) -> Result<u64, Memory> {
        let mut left = self.set.elements().len();
        for _ in 0..rounds {
            left = change_copy(self.alloc, &self.set, element, &mut self.scratch, change)?;
        }
        Ok(left)
    }
}

/// Makes a copy and changes it: 1 adds an element, 2 deletes one, 3 purges every tenth. Any other
/// number changes nothing. Returns how many elements the copy then has.
fn change_copy(
    alloc: Global,
    set: &SetImage,
    element: &NewElement,
    scratch: &mut Scratch,
    change: u32,
) -> Result<u64, Memory> {
    let mut copy = set.copy(alloc)?;
    make_change(alloc, &mut copy, element, scratch, change);
    Ok(copy.elements().len())
}

fn make_change(
    alloc: Global,
    set: &mut SetImage,
    element: &NewElement,
    scratch: &mut Scratch,
    change: u32,
) {
    match change {
        1 => insert(alloc, set, element, scratch),
        2 => delete(alloc, set, &element.parts, scratch),
        3 => purge(alloc, set),
        _ => (),
    }
}

/// Adds an element at moment 0, if it isn't refused.
fn insert(alloc: Global, set: &mut SetImage, element: &NewElement, scratch: &mut Scratch) {
    if parts_fit(set.kinds(), &element.parts) {
        let _ = set.insert(alloc, element, 0, scratch);
    }
}

fn delete(alloc: Global, set: &mut SetImage, parts: &Parts, scratch: &mut Scratch) {
    let _ = set.delete(alloc, parts, 0, scratch);
}

fn purge(alloc: Global, set: &mut SetImage) {
    let _ = set.purge(alloc, 1);
}
