//! Numbers as values of slots and of turns, for two readers.
ghost use Rattle.std.specs.Prelude.{◌≡◌, length, IfOk};
ghost use Rattle.history_laws.specs.States.{AllAre, AllShow};

use set_model::Memory;
use std::alloc::Global;

/// A value whose state is its number.
#[derive(Drop)]
pub struct Number(pub u64);

impl gen_slots::Version for Number {
    type State = u64;

    ghost state = { λ n. n.0 };

    ghost follows = { λ _ _. Unit {0} };
}

impl gen_turns::Version for Number {
    type State = u64;

    ghost state = { λ n. n.0 };

    ghost follows = { λ _ _. Unit {0} };
}

/// The values of both readers at the start.
pub fn first_values(alloc: Global) -> Result<Vec<Number>, Memory>
    ensures { IfOk result (λ v. (length v.items ≡ 2) × AllAre (λ n. n.0) 0 v.items) }
{
    let mut values = Vec::new(alloc);
    values.push(Number(0))?;
    values.push(Number(0))?;
    Ok(values)
}

/// The values of both readers at a publication.
pub fn next_values(alloc: Global, x: u64) -> Result<Vec<Option<Number>>, Memory>
    ensures { IfOk result (λ v. (length v.items ≡ 2) × AllShow (λ n. n.0) x v.items) }
{
    let mut values = Vec::new(alloc);
    values.push(Some(Number(x)))?;
    values.push(Some(Number(x)))?;
    Ok(values)
}

/// The value of a place, or 99 if the place is empty.
pub fn shown(place: &Option<Number>) -> u64 {
    match place {
        Some(old) => old.0,
        None => 99,
    }
}
