ghost use Rattle.std.specs.Prelude.{◌≡◌, true, option_map, find};
ghost use Rattle.set_model.specs.Key.{parts_fit};
ghost use Rattle.set_model.specs.SetState.{is_sharing};
ghost use Rattle.pipapo_image.specs.Index.Sharing.{IsSharingPlace, sharing_found};

use crate::image::SetImage;
use crate::image::among::Sought;
use crate::index::scratch::Scratch;
use set_model::{Found, Parts};

impl SetImage {
    /// The first element of the list that is live at `now`, in milliseconds, and shares a key with
    /// the intervals. `None` if there is none. It takes no memory.
    pub fn first_sharing(&self, parts: &Parts, now: u64, scratch: &mut Scratch) -> Option<Found>
        requires { parts_fit self.now.kinds parts.now ≡ true }
        ensures found { result ≡ sharing_found self.now parts.now now }
        ensures first { option_map (λ found. found.id) result ≡ option_map (λ e. e.id) (find (is_sharing parts.now now) self.now.elements) }
    {
        self.found_at(self.sharing_place(parts, now, scratch))
    }

    /// The place of the first live element that shares a key with the intervals. If few rules of the
    /// last field share a value with the interval there, the intervals of their elements are
    /// compared. Else the search walks through all fields.
    pub(crate) fn sharing_place(
        &self,
        parts: &Parts,
        now: u64,
        scratch: &mut Scratch,
    ) -> Option<u64>
        requires { parts_fit self.now.kinds parts.now ≡ true }
        ensures { IsSharingPlace self.now parts.now now result }
    {
        let row = &mut scratch.row;
        if self.index.are_intervals_narrow(
            parts,
            row,
            &mut scratch.next,
            &mut scratch.rest,
            &mut scratch.sum,
        ) {
            return self.first_among(row, &Sought::Sharing(parts.as_slice()), now);
        }
        self.index.find_sharing(parts, now, scratch)
    }
}
