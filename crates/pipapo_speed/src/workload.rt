ghost use Rattle.std.specs.Prelude.{◌≡◌, true, List, All, IfOk};
ghost use Rattle.set_model.specs.Key.{key_fits};

use crate::numbers::value_at;
use set_model::{Comment, Interval, Key, Kind, Kinds, Memory, NewElement, Parts, fits};
use std::alloc::Global;

fn kind_of(number: u32) -> Kind {
    match number {
        0 => Kind::Ipv4,
        1 => Kind::Ipv6,
        2 => Kind::Ether,
        3 => Kind::Proto,
        4 => Kind::Service,
        _ => Kind::Mark,
    }
}

pub(crate) fn kinds_of(alloc: Global, numbers: &[u32]) -> Result<Kinds, Memory> {
    let mut kinds = Kinds::new(alloc);
    for number in numbers {
        kinds.push(kind_of(*number))?;
    }
    Ok(kinds)
}

/// The intervals of element `e` of sets of so many fields.
fn parts_at(alloc: Global, elements: &[u64], fields: usize, e: usize) -> Result<Parts, Memory> {
    let first = e.saturating_mul(fields).saturating_mul(2);
    let mut parts = Vec::new(alloc);
    for f in 0..fields {
        let at = first.saturating_add(f.saturating_mul(2));
        parts.push(Interval {
            low: value_at(elements, at),
            high: value_at(elements, at.saturating_add(1)),
        })?;
    }
    Ok(Parts::from_vec(alloc, parts))
}

/// Element `e` of sets of so many fields, without a comment.
pub(crate) fn element_at(
    alloc: Global,
    elements: &[u64],
    fields: usize,
    e: usize,
    expiry: Option<u64>,
) -> Result<NewElement, Memory> {
    Ok(NewElement {
        parts: parts_at(alloc, elements, fields, e)?,
        expiry,
        comment: Comment::new(alloc),
    })
}

fn key_at(alloc: Global, keys: &[u64], fields: usize, k: usize) -> Result<Key, Memory> {
    let first = k.saturating_mul(fields);
    let mut key = Key::new(alloc);
    for f in 0..fields {
        key.push(value_at(keys, first.saturating_add(f)))?;
    }
    Ok(key)
}

/// The first `n` keys that fit these kinds.
pub(crate) fn keys_of(
    alloc: Global,
    kinds: &Kinds,
    keys: &[u64],
    n: usize,
) -> Result<Vec<Key>, Memory>
    ensures { IfOk result (λ list. All (λ key. key_fits kinds.now key ≡ true) list.items) }
{
    let fields = kinds.len() as usize;
    let mut list = Vec::new(alloc);
    'keys: for k in 0..n {
        let key = key_at(alloc, keys, fields, k)?;
        if fits(kinds, &key) {
            list.push(key)?;
        }
    }
    Ok(list)
}
