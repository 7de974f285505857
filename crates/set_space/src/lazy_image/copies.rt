ghost use Rattle.std.specs.Prelude.{◌≡◌, ◌<◌, ◌+◌, true, None, Err, length, IfOk};
ghost use Rattle.set_model.specs.Key.{parts_fit};
ghost use Rattle.set_model.specs.SetState.{add, removed, element_at, without_at};
ghost use Rattle.pipapo_image.specs.Image.Insert.{addition_said, IsAnswer};
ghost use Rattle.pipapo_image.specs.Image.Decision.{CanBeDone, comes, set_left};
ghost use Rattle.set_space.specs.Answers.{IsCreation};
ghost use Rattle.set_space.specs.LazyImage.{set_of, added_by};
ghost use Rattle.set_space.specs.Staying.{staying};
ghost use Rattle.set_space.specs.Copies.{copied, IsTakenOut};

use crate::lazy_image::LazyImage;
use pipapo_image::{Added, ChangeError, Decision, Scratch};
use set_model::{Memory, NewElement, Parts, Why};
use std::alloc::Global;

impl LazyImage {
    /// The result of an insertion of this element, and a copy of the set with it. There is no copy
    /// if nothing changes. A refusal may come after the rule numbers closed up in a copy. Then that
    /// copy is returned, so that they needn't close up again. `now` is in milliseconds.
    ///
    /// # Errors
    ///
    /// `Memory` if memory runs out. The result has the errors of an insertion into an image.
    pub(crate) fn inserted(
        &self,
        alloc: Global,
        element: &NewElement,
        now: u64,
        scratch: &mut Scratch,
    ) -> Result<(Result<Added, ChangeError>, Option<LazyImage>), Memory>
        requires { parts_fit (set_of self.now).kinds element.now.parts ≡ true }
        ensures { IfOk result (λ r. IsAnswer (add (set_of self.now) element.now now) r.0 (set_of self.now) (copied r.1 (set_of self.now))) }
    {
        match self.decided(alloc, element, now, scratch) {
            Some(Err(error)) => Ok((Err(error), None)),
            Some(Ok(decision)) => {
                let (came, copy) = self.inserted_as(alloc, decision, element)?;
                Ok((Ok(came), copy))
            }
            None => {
                let mut changed = self.closed_up(alloc)?;
                let came = changed.insert(alloc, element, now, scratch);
                Ok((came, Some(changed)))
            }
        }
    }

    /// Carries out an insertion's decision in a copy. Returns the copy and the result. There is no
    /// copy if nothing changes.
    fn inserted_as(
        &self,
        alloc: Global,
        decision: Decision,
        element: &NewElement,
    ) -> Result<(Added, Option<LazyImage>), Memory>
        requires fit { parts_fit self.now.image.kinds element.now.parts ≡ true }
        requires can { CanBeDone self.now.image element.now.parts decision }
        requires grows { length (staying self.now.passed (set_left self.now.image element.now decision)).elements ≡ self.now.count + added_by decision }
        ensures came { IfOk result (λ r. addition_said r.0 ≡ comes decision self.now.image.next) }
        ensures left { IfOk result (λ r. copied r.1 (set_of self.now) ≡ staying self.now.passed (set_left self.now.image element.now decision)) }
    {
        if let Decision::Stays { id } = decision {
            return Ok((Added::Already { id }, None));
        }
        let (came, changed) = self.carried_out(alloc, decision, element)?;
        Ok((came, Some(changed)))
    }

    /// The result of a creation of this element, and a copy of the set with it, as of an insertion.
    /// `now` is in milliseconds.
    ///
    /// # Errors
    ///
    /// `Memory` if memory runs out. The result has `Exists` if the set has an element of the same
    /// intervals. Otherwise it has the errors of an insertion.
    pub(crate) fn created(
        &self,
        alloc: Global,
        element: &NewElement,
        now: u64,
        scratch: &mut Scratch,
    ) -> Result<(Result<u64, ChangeError>, Option<LazyImage>), Memory>
        requires { parts_fit (set_of self.now).kinds element.now.parts ≡ true }
        ensures { IfOk result (λ r. IsCreation (add (set_of self.now) element.now now) r.0 (set_of self.now) (copied r.1 (set_of self.now))) }
    {
        match self.decided(alloc, element, now, scratch) {
            Some(Err(error)) => Ok((Err(error), None)),
            Some(Ok(decision)) => self.created_as(alloc, decision, element),
            None => {
                let mut changed = self.closed_up(alloc)?;
                let came = changed.create(alloc, element, now, scratch);
                Ok((came, Some(changed)))
            }
        }
    }

    /// Carries out a creation's decision in a copy. Returns the copy and the result.
    fn created_as(
        &self,
        alloc: Global,
        decision: Decision,
        element: &NewElement,
    ) -> Result<(Result<u64, ChangeError>, Option<LazyImage>), Memory>
        requires fit { parts_fit self.now.image.kinds element.now.parts ≡ true }
        requires can { CanBeDone self.now.image element.now.parts decision }
        requires grows { length (staying self.now.passed (set_left self.now.image element.now decision)).elements ≡ self.now.count + added_by decision }
        ensures { IfOk result (λ r. IsCreation (comes decision self.now.image.next, staying self.now.passed (set_left self.now.image element.now decision)) r.0 (set_of self.now) (copied r.1 (set_of self.now))) }
    {
        if let Some(id) = decision.existing() {
            return Ok((Err(ChangeError::Refused(Why::Exists { id })), None));
        }
        match self.carried_out(alloc, decision, element)? {
            (Added::New { id }, changed) => Ok((Ok(id), Some(changed))),
            (Added::Already { .. } | Added::Renewed { .. }, _) => unreachable!(),
        }
    }

    /// A copy in which the decision is carried out, and the result.
    fn carried_out(
        &self,
        alloc: Global,
        decision: Decision,
        element: &NewElement,
    ) -> Result<(Added, LazyImage), Memory>
        requires fit { parts_fit self.now.image.kinds element.now.parts ≡ true }
        requires can { CanBeDone self.now.image element.now.parts decision }
        requires grows { length (staying self.now.passed (set_left self.now.image element.now decision)).elements ≡ self.now.count + added_by decision }
        ensures came { IfOk result (λ r. addition_said r.0 ≡ comes decision self.now.image.next) }
        ensures left { IfOk result (λ r. set_of r.1 ≡ staying self.now.passed (set_left self.now.image element.now decision)) }
    {
        let mut changed = self.copy(alloc)?;
        let came = changed.carry_out(alloc, decision, element)?;
        Ok((came, changed))
    }

    /// A copy of the set without the first live element with exactly these intervals, and the
    /// element's id.
    ///
    /// # Errors
    /// `Missing` exactly if there is no such element. `Memory` if memory runs out.
    pub(crate) fn without(
        &self,
        alloc: Global,
        parts: &Parts,
        now: u64,
        scratch: &mut Scratch,
    ) -> Result<(u64, LazyImage), ChangeError>
        ensures removal { IsTakenOut (removed (set_of self.now) parts.now now) (set_of self.now) result }
        ensures missing { removed (set_of self.now) parts.now now ≡ None → result ≡ Err (ChangeError.Refused Why.Missing) }
    {
        let moment = self.moment(now);
        match self.image.find_exact(parts, moment, scratch) {
            None => Err(ChangeError::Refused(Why::Missing)),
            Some(found) => Ok(self.without_at(alloc, found.place)?),
        }
    }

    /// A copy of the set without the element at place `i` of the image, and the element's id.
    fn without_at(&self, alloc: Global, i: u64) -> Result<(u64, LazyImage), Memory>
        requires within { i < length self.now.image.elements }
        requires falls { length (staying self.now.passed (without_at self.now.image i)).elements + 1 ≡ self.now.count }
        ensures id { IfOk result (λ r. r.0 ≡ (element_at self.now.image i).id) }
        ensures left { IfOk result (λ r. set_of r.1 ≡ staying self.now.passed (without_at self.now.image i)) }
    {
        let mut changed = self.copy(alloc)?;
        let id = changed.remove_at(alloc, i)?;
        Ok((id, changed))
    }
}
