// Intervals, keys and expiries that look random.
use crate::plain::PlainSet;
use crate::random::{Random, Shape};
use set_model::{Interval, Kind, Memory};
use std::alloc::Global;

// Small intervals come first: a large one may enclose what is there, and not the other way round.
const SHAPES: [Shape; 8] = [
    Shape::Single,
    Shape::Single,
    Shape::Single,
    Shape::Narrow,
    Shape::Narrow,
    Shape::Wide,
    Shape::Wide,
    Shape::Whole,
];

/// Intervals of each kind, of the first `shapes` shapes.
pub(crate) fn intervals(
    alloc: Global,
    random: &mut Random,
    kinds: &[Kind],
    shapes: u64,
) -> Result<Vec<Interval>, Memory> {
    let shapes = shapes.clamp(1, 8);
    let mut parts = Vec::new(alloc);
    for kind in kinds {
        let shape = SHAPES[random.below(shapes) as usize % 8];
        parts.push(random.interval(*kind, shape))?;
    }
    Ok(parts)
}

/// A value near the interval of field `f` of the element at a place, or any.
fn value_near(random: &mut Random, kind: Kind, plain: &PlainSet, place: usize, f: usize) -> u128 {
    match plain.part(place, f) {
        Some(part) => random.value_near(kind, part),
        None => random.value(kind),
    }
}

/// A key, mostly of values near some element's intervals.
pub(crate) fn key_near(
    alloc: Global,
    random: &mut Random,
    kinds: &[Kind],
    plain: &PlainSet,
) -> Result<Vec<u128>, Memory> {
    let place = random.next() as usize % plain.elements.len().max(1);
    let mut key = Vec::new(alloc);
    for (f, kind) in kinds.iter().enumerate() {
        key.push(value_near(random, *kind, plain, place, f))?;
    }
    Ok(key)
}

/// A moment up to 2,000 after `now`, or none for some of the earliest moments.
pub(crate) fn expiry_behind(random: &mut Random, now: u64) -> Option<u64> {
    if now < 300 && random.below(3) == 0 {
        return None;
    }
    Some(now.saturating_add(1 + random.below(2_000)))
}
