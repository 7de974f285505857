//! Groups of a field's bits, and which bits of each group a block fixes.
//!
//! A lookup cuts a value into groups of four or eight bits, the most significant first. A block
//! fixes the upper bits of its base and leaves the lower ones free. So in each group it fixes all
//! bits, the upper bits, or none. In groups of eight bits, two blocks of the example are:
//!
//! ```text
//!                    group 0   group 1   group 2   group 3
//! 192.168.2.0/31     192       168       2         0 or 1     fixes seven bits of group 3
//! 192.168.1.0/24     192       168       1         0-255      fixes no bit of group 3
//! ```
//!
//! A value agrees with a block in a group if it equals the base on the fixed bits. 192.168.1.5
//! agrees with the second block in all four groups, so that block holds it (`held_by_groups`). It
//! doesn't agree with the first block in group 2. The values of a group that agree with a block are
//! always a run (`agreeing_run`).
//!
//! **Definitions:** `specs/Groups.antt`, with the laws for both widths in `Laws.antt`. **Theory:**
//! docs/architecture.md, "The classifier, by one example". **Proofs:** docs/proofs.md, "Tables
//! (`field_groups`, `lookup_table`)".
#![tactic(auto)]

ghost use Rattle.std.specs.Prelude.{◌≡◌, ℕ, ◌+◌, ◌-◌, ◌*◌, ◌/◌, ◌%◌, ◌^◌, ◌<◌, ◌≤◌};
ghost use Rattle.set_model.specs.Blocks.{IsWithin};
ghost use Rattle.field_groups.specs.Groups.{group, fixed, IsWidth};

use set_model::Block;

mod laws;
mod places;

pub use laws::{
    agreeing_halves, agreeing_run, fixed_by_mask, held_by_groups, shared_by_groups, shared_is_held,
};
pub use places::{LastFour, group_count, last_four};

/// Group `g` of a value of a field of `bits` bits, in groups of `width` bits. Group 0 is the most
/// significant one.
#[inline(always)]
#[tactic(auto, using(crate::proofs::GroupLaws::masks))]
pub fn group_value(value: u128, width: u32, bits: u32, g: u32) -> u32
    requires width { IsWidth width bits }
    requires group { g < bits / width }
    requires value { value < 2 ^ bits }
    ensures { result ≡ group width bits g value }
{
    let shift = bits - width * (g + 1);
    if bits <= 64 {
        (value as u64 >> shift & (1u64 << width) - 1) as u32
    } else {
        (value >> shift & (1u128 << width) - 1) as u32
    }
}

/// Group `g` of the block's base, and the mask of the bits that the block fixes in that group.
#[inline(always)]
#[tactic(auto, using(crate::proofs::GroupLaws::masks))]
pub fn group_mask(block: Block, width: u32, bits: u32, g: u32) -> (u32, u32)
    requires width { IsWidth width bits }
    requires group { g < bits / width }
    requires block { IsWithin bits block }
    ensures base { result.0 ≡ group width bits g block.base }
    ensures mask { result.1 ≡ fixed width bits g block }
{
    let shift = bits - width * (g + 1);
    let free = block.free_bits.saturating_sub(shift).min(width);
    (
        group_value(block.base, width, bits, g),
        (1u32 << width) - (1u32 << free),
    )
}
