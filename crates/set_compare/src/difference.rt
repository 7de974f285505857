ghost use Rattle.std.specs.Prelude.{◌≡◌, ◌↔◌, ◌&&◌, IfOk, IsTrue, is_none};
ghost use Rattle.set_compare.specs.Missing.{AreDifferences, DecideAlike};

use crate::missing::{Lack, first_missing};
use pipapo_image::{Scratch, SetImage};
use set_model::Memory;
use std::alloc::Global;

/// What two sets decide differently.
#[derive(Drop)]
pub struct Difference {
    /// The least key that the first set finds and the second doesn't.
    pub in_first: Option<Lack>,
    /// The least key that the second set finds and the first doesn't.
    pub in_second: Option<Lack>,
}

impl Difference {
    /// Whether the two sets decide alike: no key is in one of them alone.
    pub fn is_none(&self) -> bool
        ensures { result ≡ (is_none self.now.in_first && is_none self.now.in_second) }
    {
        self.in_first.is_none() && self.in_second.is_none()
    }
}

/// Compares two sets of the same kinds, each at its own moment in milliseconds.
///
/// # Errors
/// `Memory` if memory runs out.
pub fn compare(
    alloc: Global,
    first: &SetImage,
    first_at: u64,
    second: &SetImage,
    second_at: u64,
    scratch: &mut Scratch,
) -> Result<Difference, Memory>
    requires { first.now.kinds ≡ second.now.kinds }
    ensures differences { IfOk result (AreDifferences first.now first_at second.now second_at) }
    ensures alike { IfOk result (λ difference. IsTrue (is_none difference.in_first && is_none difference.in_second) ↔ DecideAlike first.now first_at second.now second_at) }
{
    let in_first = first_missing(alloc, first, first_at, second, second_at, scratch)?;
    let in_second = first_missing(alloc, second, second_at, first, first_at, scratch)?;
    Ok(Difference {
        in_first,
        in_second,
    })
}
