ghost use Rattle.std.specs.Prelude.{◌≡◌, ◌<◌, true, length, OnErr, IfOk};
ghost use Rattle.set_model.specs.Key.{parts_fit};
ghost use Rattle.set_model.specs.SetState.{removed, element_at, without_at};
ghost use Rattle.pipapo_image.specs.Image.Found.{exactly_found};
ghost use Rattle.pipapo_image.specs.Image.Remove.{IsRemoval};
ghost use Rattle.pipapo_image.specs.Image.Steps.{IsExactPlace};

use crate::answers::ChangeError;
use crate::image::SetImage;
use crate::image::among::Sought;
use crate::image::keys::starts;
use crate::index::scratch::Scratch;
use set_model::{Found, Memory, Parts, Why, parts_fit};
use std::alloc::Global;

impl SetImage {
    /// The first element that is live at `now`, in milliseconds, and has exactly these intervals.
    /// `None` if there is none. It takes no memory.
    pub fn find_exact(&self, parts: &Parts, now: u64, scratch: &mut Scratch) -> Option<Found>
        ensures { result ≡ exactly_found self.now parts.now now }
    {
        self.found_at(self.exact_at(parts, now, scratch))
    }

    /// Removes the first element that is live at `now`, in milliseconds, and has exactly these
    /// intervals. Returns its id. The rules of later elements move down.
    ///
    /// # Errors
    ///
    /// `Missing` exactly if there is no such element, also if an expired element has these
    /// intervals. `Memory` if memory runs out. Each leaves the set as it was.
    #[tactic(auto, using(crate::proofs::Shrinking::never_missing))]
    pub fn delete(
        &mut self,
        alloc: Global,
        parts: &Parts,
        now: u64,
        scratch: &mut Scratch,
    ) -> Result<u64, ChangeError>
        ensures removal { IsRemoval (removed self.old parts.now now) result self.old self.new }
        ensures missing { removed self.old parts.now now ≡ None → result ≡ Err (ChangeError.Refused Why.Missing) }
    {
        match self.exact_at(parts, now, scratch) {
            None => Err(ChangeError::Refused(Why::Missing)),
            Some(i) => Ok(self.remove_at(alloc, i)?),
        }
    }

    /// The place of the first element that is live and has exactly these intervals. It is the first
    /// live element that holds their start key, or a later one if that element has other intervals.
    fn exact_at(&self, parts: &Parts, now: u64, scratch: &mut Scratch) -> Option<u64>
        ensures { IsExactPlace self.now parts.now now result }
    {
        if !parts_fit(&self.kinds, parts) {
            return None;
        }
        match self.start_place(parts, now, scratch) {
            Some(i) if self.has_parts(i, parts) => Some(i),
            Some(_) => self.exact_reached(parts, now, scratch),
            None => None,
        }
    }

    /// The same place, by all rules that the start key leads to. The set's other elements aren't
    /// looked at.
    fn exact_reached(&self, parts: &Parts, now: u64, scratch: &mut Scratch) -> Option<u64>
        requires { parts_fit self.now.kinds parts.now ≡ true }
        ensures { IsExactPlace self.now parts.now now result }
    {
        let _kinds = self.kinds.len();
        let lows = starts(parts);
        let row = &mut scratch.row;
        self.index
            .reach(&lows[..parts.len() as usize], row, &mut scratch.next);
        self.first_among(row, &Sought::Exactly(parts.as_slice()), now)
    }

    /// Removes the element at place `i`, and returns its id. The rules of later elements move down.
    /// The call takes all memory before the first change.
    ///
    /// # Errors
    ///
    /// `Memory` if memory runs out. The set is as it was.
    pub fn remove_at(&mut self, alloc: Global, i: u64) -> Result<u64, Memory>
        requires { i < length self.old.elements }
        ensures ok { IfOk result (λ id. (id ≡ (element_at self.old i).id) × (self.new ≡ without_at self.old i)) }
        ensures err { OnErr result (self.new ≡ self.old) }
    {
        let runs = self.runs(alloc, i)?;
        let mut others = self.index.prepare_without(alloc, runs.as_slice())?;
        let element = self.elements.remove(i)?;
        self.index
            .drop_element(others.as_mut_slice(), runs.as_slice());
        Ok(element.id)
    }
}
