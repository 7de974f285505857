ghost use Rattle.std.specs.Prelude.{◌≡◌, length, IfOk, get_or};
ghost use Rattle.lookup_table.specs.declared.table.FieldTable.{FieldTable as Table};
ghost use Rattle.mapping_table.specs.Spared.{Spared};
ghost use Rattle.set_tables.specs.declared.Span.{Span as OneSpan};
ghost use Rattle.pipapo_image.specs.Index.Built.{Built};
ghost use Rattle.pipapo_image.specs.Index.Grow.{IsKept};
ghost use Rattle.pipapo_image.specs.Index.Copied.{AreFieldsAgain, AreMapsAgain};

use crate::index::{Fields, Index, Maps};
use lookup_table::FieldTable;
use mapping_table::MapTable;
use set_model::{Duplicate, Memory};
use std::alloc::Global;

/// A copy of the table.
fn table_again(alloc: Global, table: &FieldTable) -> Result<FieldTable, Memory>
    ensures { IfOk result (IsKept table.now) }
{
    let other = table.copy(alloc)?;
    Ok(other)
}

fn fields_again(alloc: Global, fields: &[FieldTable]) -> Result<Fields, Memory>
    ensures { IfOk result (λ others. AreFieldsAgain fields.now others (length fields.now)) }
{
    let mut others = Fields::new(alloc);
    'fields: for f in 0..fields.len() {
        others.push(table_again(alloc, &fields[f])?)?;
    }
    Ok(others)
}

fn maps_again(alloc: Global, maps: &[MapTable]) -> Result<Maps, Memory>
    ensures { IfOk result (λ others. AreMapsAgain maps.now others (length maps.now)) }
{
    let mut others = Maps::new(alloc);
    'maps: for f in 0..maps.len() {
        others.push(maps[f].copy(alloc)?)?;
    }
    Ok(others)
}

impl Index {
    ghost use Rattle.pipapo_image.specs.Index.Changes.{IsSameIndex};

    /// A copy of the tables.
    ///
    /// # Errors
    /// `Memory` if memory runs out.
    pub(crate) fn copy(&self, alloc: Global) -> Result<Index, Memory>
        ensures { IfOk result (IsSameIndex self.now) }
    {
        Ok(Index {
            fields: fields_again(alloc, self.fields.as_slice())?,
            maps: maps_again(alloc, self.maps.as_slice())?,
            ends: self.ends.copy(alloc)?,
        })
    }
}
