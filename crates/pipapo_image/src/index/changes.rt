ghost use Rattle.std.specs.Prelude.{◌≡◌, ◌-◌, length, OnOk, get_or, None};
ghost use Rattle.set_tables.specs.Search.{of_field};

use crate::index::Index;
use crate::index::grow::{push_ends, put_columns, put_spans, reserve_columns, reserve_spans};
use lookup_table::FieldTable;
use set_model::{Block, Listed, Memory};
use set_tables::End;

impl Index {
    ghost use Rattle.pipapo_image.specs.Index.{IsShapedIndex};
    ghost use Rattle.pipapo_image.specs.Index.Changes.{AreColumnsOf, IsSameIndex, HasRoomFor, AreReady, IsAppended};

    /// Takes room for the columns of a new element. Nothing else changes.
    ///
    /// # Errors
    /// `Memory` if memory runs out.
    pub(crate) fn reserve(&mut self, columns: &[Listed<Block>]) -> Result<(), Memory>
        requires shaped { IsShapedIndex self.old }
        requires columns { AreColumnsOf self.old columns.now }
        ensures kept { IsSameIndex self.old self.new }
        ensures room { OnOk result (HasRoomFor self.new columns.now) }
    {
        let last = columns[columns.len() - 1].len() as u32;
        reserve_columns(&mut self.fields, columns)?;
        reserve_spans(&mut self.maps, columns)?;
        self.ends.reserve(last)?;
        Ok(())
    }

    /// Adds the rules of an element: one column for each field. A field whose table needs another
    /// width takes its replacement.
    pub(crate) fn append(
        &mut self,
        others: &mut [Option<FieldTable>],
        columns: &[Listed<Block>],
        end: End,
    )
        requires shaped { IsShapedIndex self.old }
        requires columns { AreColumnsOf self.old columns.now }
        requires room { HasRoomFor self.old columns.now }
        requires ready { AreReady self.old others.old columns.now }
        ensures { IsAppended self.old self.new others.old columns.now end }
    {
        put_spans(self.fields.as_slice(), &mut self.maps, columns);
        let last = columns[columns.len() - 1].len() as u32;
        push_ends(&mut self.ends, last, end);
        put_columns(&mut self.fields, others, columns);
    }
}
