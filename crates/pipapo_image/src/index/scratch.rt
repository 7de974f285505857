ghost use Rattle.std.specs.Prelude.{◌≡◌, ◌+◌, ◌≤◌, length, IfOk};
ghost use Rattle.pipapo_image.specs.Index.Room.{HasRoomForRules, IsBlank};

use bit_rows::BitRow;
use set_model::Memory;
use std::alloc::Global;
use std::marker::Model;

/// The most rules that a field has.
pub(crate) const MOST_RULES: u32 = 1_048_576;

/// The rows that a lookup works in. Each has room for exactly as many rules as a field can have, so
/// a lookup takes no memory. One scratch serves many lookups, and no lookup depends on what an
/// earlier one left.
#[derive(Drop)]
pub struct Scratch {
    pub(crate) row: BitRow,
    pub(crate) next: BitRow,
    pub(crate) rest: BitRow,
    pub(crate) sum: BitRow,
    // Two rows for the fused lookup, blank between lookups.
    pub(crate) here: BitRow,
    pub(crate) beyond: BitRow,
}

impl Model for Scratch {
    ghost use Rattle.std.specs.Prelude.{ℕ};
    ghost use Rattle.set_model.specs.SetState.{rules_limit};
    ghost use Rattle.pipapo_image.specs.Index.Room.{HasRoomForRules, IsBlank};

    ghost Value = { ℕ };

    ghost view = { λ a. rules_limit };

    ghost invariant = { λ a. HasRoomForRules a.row × HasRoomForRules a.next × HasRoomForRules a.rest × HasRoomForRules a.sum × IsBlank a.here × IsBlank a.beyond };
}

impl Scratch {
    /// Takes the memory of the rows: 768 KiB in all.
    ///
    /// # Errors
    /// `Memory` if memory runs out.
    pub fn new(alloc: Global) -> Result<Scratch, Memory> {
        Ok(Scratch {
            row: blank_row(alloc)?,
            next: blank_row(alloc)?,
            rest: blank_row(alloc)?,
            sum: blank_row(alloc)?,
            here: blank_row(alloc)?,
            beyond: blank_row(alloc)?,
        })
    }
}

/// A row of the most rules, with room for no more.
fn blank_row(alloc: Global) -> Result<BitRow, Memory>
    ensures blank { IfOk result (λ row. IsBlank row) }
    ensures room { IfOk result (λ row. HasRoomForRules row) }
{
    let row = BitRow::zeros(alloc, MOST_RULES)?;
    Ok(row)
}
