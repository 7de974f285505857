ghost use Rattle.std.specs.Prelude.{◌≡◌, true, length, OnOk, OnErr, None};
ghost use Rattle.set_model.specs.Key.{parts_fit};
ghost use Rattle.set_model.specs.SetState.{crowded_field};
ghost use Rattle.pipapo_image.specs.Image.Append.{with_last};
ghost use Rattle.pipapo_image.specs.Index.Built.{Built};
ghost use Rattle.pipapo_image.specs.Index.Grow.{IsColumn};

use crate::image::SetImage;
use crate::index::columns::columns;
use crate::index::grow::other_widths;
use set_model::{Block, Duplicate, Element, Listed, Memory};
use set_tables::End;
use std::alloc::Global;

impl SetImage {
    /// Puts an element at the end of the list. Its rules are these columns, within all limits. The
    /// call takes all memory before the first change.
    pub(crate) fn append_element(
        &mut self,
        alloc: Global,
        columns: &[Listed<Block>],
        element: Element,
    ) -> Result<(), Memory>
        requires fit { parts_fit self.old.kinds element.parts ≡ true }
        requires columns { Built (IsColumn self.old.kinds element.parts) columns.now (length self.old.kinds) }
        requires few { crowded_field self.old element.parts ≡ None }
        ensures ok { OnOk result (self.new ≡ with_last self.old element) }
        ensures err { OnErr result (self.new ≡ self.old) }
    {
        let end = End {
            place: self.elements.len(),
            expiry: element.expiry,
        };
        let mut others = other_widths(alloc, self.index.fields.as_slice(), columns)?;
        self.index.reserve(columns)?;
        self.elements.push(element)?;
        self.index.append(others.as_mut_slice(), columns, end);
        Ok(())
    }

    /// Puts a copy of an element, which shares its contents, at the end of the list. Its rules must
    /// be within all limits.
    pub(crate) fn append_copy(&mut self, alloc: Global, element: &Element) -> Result<(), Memory>
        requires fit { parts_fit self.old.kinds element.now.parts ≡ true }
        requires few { crowded_field self.old element.now.parts ≡ None }
        ensures ok { OnOk result (self.new ≡ with_last self.old element.now) }
        ensures err { OnErr result (self.new ≡ self.old) }
    {
        let columns = columns(alloc, &self.kinds, &element.parts)?;
        let copy = element.copy(alloc)?;
        self.append_element(alloc, columns.as_slice(), copy)
    }
}
