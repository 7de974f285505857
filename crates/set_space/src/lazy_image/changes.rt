ghost use Rattle.std.specs.Prelude.{◌≡◌, ◌<◌, ◌+◌, true, false, None, length, unwrap_or, IfOk, IfSome, OnOk, OnErr};
ghost use Rattle.set_model.specs.Key.{parts_fit};
ghost use Rattle.set_model.specs.SetState.{add, removed, element_at, purged, without_at};
ghost use Rattle.pipapo_image.specs.Image.Insert.{addition_said, IsAnswer};
ghost use Rattle.pipapo_image.specs.Image.Decision.{CanBeDone, comes, set_left};
ghost use Rattle.pipapo_image.specs.Image.Remove.{IsRemoval};
ghost use Rattle.set_space.specs.LazyImage.{set_of, is_at_limit, would_leave, wants_room, added_by, IsLazyDecision};
ghost use Rattle.set_space.specs.Staying.{staying};
ghost use Rattle.set_space.specs.Answers.{IsCreation};

use crate::lazy_image::LazyImage;
use pipapo_image::{Added, ChangeError, Decision, Scratch};
use set_model::{Memory, NewElement, Parts, Why, is_live};
use shared_pages::PAGE;
use std::alloc::Global;

/// Whether a field's number of rules refuses an element.
fn is_at_limit(answer: &Result<Decision, ChangeError>) -> bool
    ensures { result ≡ is_at_limit answer.now }
{
    match answer {
        Err(ChangeError::Refused(Why::RulesFull { .. })) => true,
        _ => false,
    }
}

/// How many elements a decision adds.
fn added_by(decision: &Decision) -> u64
    ensures { result ≡ added_by decision.now }
{
    match decision {
        Decision::Adds { .. } => 1,
        Decision::Stays { .. } | Decision::Renews { .. } => 0,
    }
}

impl LazyImage {
    /// Inserts into the set. `now` is in milliseconds.
    ///
    /// # Errors
    /// As of an insertion into an image. The set is as it was.
    pub(crate) fn insert(
        &mut self,
        alloc: Global,
        element: &NewElement,
        now: u64,
        scratch: &mut Scratch,
    ) -> Result<Added, ChangeError>
        requires { parts_fit (set_of self.old).kinds element.now.parts ≡ true }
        ensures { IsAnswer (add (set_of self.old) element.now now) result (set_of self.old) (set_of self.new) }
    {
        let decision = self.decide(alloc, element, now, scratch)?;
        let came = self.carry_out(alloc, decision, element)?;
        Ok(came)
    }

    /// Inserts into the set, if it has no live element of the same intervals.
    ///
    /// # Errors
    ///
    /// `Exists` if it has one. Otherwise as of an insertion. The set is as it was.
    pub(crate) fn create(
        &mut self,
        alloc: Global,
        element: &NewElement,
        now: u64,
        scratch: &mut Scratch,
    ) -> Result<u64, ChangeError>
        requires { parts_fit (set_of self.old).kinds element.now.parts ≡ true }
        ensures { IsCreation (add (set_of self.old) element.now now) result (set_of self.old) (set_of self.new) }
    {
        let decision = self.decide(alloc, element, now, scratch)?;
        if let Some(id) = decision.existing() {
            return Err(ChangeError::Refused(Why::Exists { id }));
        }
        match self.carry_out(alloc, decision, element)? {
            Added::New { id } => Ok(id),
            Added::Already { .. } | Added::Renewed { .. } => unreachable!(),
        }
    }

    /// Carries out what was decided for the set.
    ///
    /// # Errors
    /// `Memory` if memory runs out. The set is as it was.
    pub(super) fn carry_out(
        &mut self,
        alloc: Global,
        decision: Decision,
        element: &NewElement,
    ) -> Result<Added, Memory>
        requires fit { parts_fit self.old.image.kinds element.now.parts ≡ true }
        requires can { CanBeDone self.old.image element.now.parts decision }
        requires grows { length (staying self.old.passed (set_left self.old.image element.now decision)).elements ≡ self.old.count + added_by decision }
        ensures came { IfOk result (λ came. addition_said came ≡ comes decision self.old.image.next) }
        ensures left { IfOk result (λ _. set_of self.new ≡ staying self.old.passed (set_left self.old.image element.now decision)) }
        ensures err { OnErr result (set_of self.new ≡ set_of self.old) }
    {
        let added = added_by(&decision);
        let came = self.image.carry_out(alloc, decision, element)?;
        let _elements = self.image.elements();
        self.count += added;
        Ok(came)
    }

    /// Removes the first live element with exactly these intervals, and returns its id.
    ///
    /// # Errors
    /// `Missing` exactly if there is no such element. `Memory` if memory runs out. The set is as it was.
    pub(crate) fn delete(
        &mut self,
        alloc: Global,
        parts: &Parts,
        now: u64,
        scratch: &mut Scratch,
    ) -> Result<u64, ChangeError>
        ensures removal { IsRemoval (removed (set_of self.old) parts.now now) result (set_of self.old) (set_of self.new) }
        ensures missing { removed (set_of self.old) parts.now now ≡ None → result ≡ Err (ChangeError.Refused Why.Missing) }
    {
        let moment = self.moment(now);
        match self.image.find_exact(parts, moment, scratch) {
            None => Err(ChangeError::Refused(Why::Missing)),
            Some(found) => Ok(self.remove_at(alloc, found.place)?),
        }
    }

    /// Decides what an insertion of this element does to the image. `now` is in milliseconds. If
    /// the image can't decide for the set, the rule numbers close up first. A second lookup is
    /// needed only after a limit's refusal.
    ///
    /// # Errors
    ///
    /// As of an insertion. The set is as it was.
    fn decide(
        &mut self,
        alloc: Global,
        element: &NewElement,
        now: u64,
        scratch: &mut Scratch,
    ) -> Result<Decision, ChangeError>
        requires { parts_fit self.old.image.kinds element.now.parts ≡ true }
        ensures same { set_of self.new ≡ set_of self.old }
        ensures decided { IsLazyDecision self.new.passed self.new.image element.now (add (set_of self.old) element.now now) result }
    {
        self.make_way(alloc, element)?;
        let answer = self.foresee(alloc, element, now, scratch);
        if self.wants_room(&answer) {
            self.close_up(alloc)?;
            return self.foresee(alloc, element, now, scratch);
        }
        answer
    }

    /// Closes the rule numbers up if many elements left, or if the image would take this element
    /// for one that left.
    fn make_way(&mut self, alloc: Global, element: &NewElement) -> Result<(), Memory>
        ensures same { set_of self.new ≡ set_of self.old }
        ensures stays { OnOk result (would_leave self.new.passed element.now.expiry ≡ false) }
    {
        self.close_gaps(alloc)?;
        if self.would_leave(element) {
            self.close_up(alloc)?;
        }
        Ok(())
    }

    /// What the image decides of an insertion of this element. `None` if the image can't decide for
    /// the set, so that the rule numbers must close up first.
    pub(super) fn decided(
        &self,
        alloc: Global,
        element: &NewElement,
        now: u64,
        scratch: &mut Scratch,
    ) -> Option<Result<Decision, ChangeError>>
        requires { parts_fit self.now.image.kinds element.now.parts ≡ true }
        ensures { IfSome result (λ answer. IsLazyDecision self.now.passed self.now.image element.now (add (set_of self.now) element.now now) answer) }
    {
        if self.would_leave(element) {
            return None;
        }
        let answer = self.foresee(alloc, element, now, scratch);
        if self.wants_room(&answer) {
            None
        } else {
            Some(answer)
        }
    }

    /// What the image decides of an insertion of this element.
    fn foresee(
        &self,
        alloc: Global,
        element: &NewElement,
        now: u64,
        scratch: &mut Scratch,
    ) -> Result<Decision, ChangeError>
        requires fit { parts_fit self.now.image.kinds element.now.parts ≡ true }
        requires stays { would_leave self.now.passed element.now.expiry ≡ false }
        ensures { wants_room self.now.passed result ≡ false → IsLazyDecision self.now.passed self.now.image element.now (add (set_of self.now) element.now now) result }
    {
        let moment = self.moment(now);
        self.image
            .decide_if(alloc, element, moment, self.is_full(), scratch)
    }

    /// Whether the image would take the element for one that left.
    fn would_leave(&self, element: &NewElement) -> bool
        ensures { result ≡ would_leave self.now.passed element.now.expiry }
    {
        match self.passed {
            Some(passed) => !is_live(element.expiry, passed),
            None => false,
        }
    }

    /// Whether the number of rules refuses an element, and elements that left have rules, too.
    fn wants_room(&self, answer: &Result<Decision, ChangeError>) -> bool
        ensures { result ≡ wants_room self.now.passed answer.now }
    {
        self.passed.is_some() && is_at_limit(answer)
    }

    /// Removes the element at place `i` of the image from the set, and returns its id.
    ///
    /// # Errors
    /// `Memory` if memory runs out. The set is as it was.
    pub(super) fn remove_at(&mut self, alloc: Global, i: u64) -> Result<u64, Memory>
        requires within { i < length self.old.image.elements }
        requires falls { length (staying self.old.passed (without_at self.old.image i)).elements + 1 ≡ self.old.count }
        ensures id { IfOk result (λ id. id ≡ (element_at self.old.image i).id) }
        ensures left { OnOk result (set_of self.new ≡ staying self.old.passed (without_at self.old.image i)) }
        ensures err { OnErr result (set_of self.new ≡ set_of self.old) }
    {
        if self.waits(i) {
            return self.mark(alloc, i);
        }
        let id = self.image.remove_at(alloc, i)?;
        self.count -= 1;
        Ok(id)
    }

    /// Whether the element at place `i` of the image stays there if it is deleted, until the
    /// numbers close up. It is removed at once if few rules move down.
    fn waits(&self, i: u64) -> bool
        requires { i < length self.now.image.elements }
        ensures { result ≡ true → set_of self.now ≡ purged self.now.image (unwrap_or self.now.passed 0) }
    {
        self.moved_rules(i) > PAGE as u64 && self.can_wait()
    }

    /// About how many rules move down if the element at place `i` leaves the tables. It is the share
    /// of the later elements in the field that has the most rules.
    fn moved_rules(&self, i: u64) -> u64
        requires { i < length self.now.image.elements }
    {
        let fields = self.image.index().fields.as_slice();
        let most = fields.iter().map(|field| field.rules).max().unwrap_or(0);
        let elements = self.image.elements().len();
        (most as u64).saturating_mul(elements - i) / elements
    }

    /// Whether each element of the set is live at the moment by which others left. Then an element
    /// with the expiry 0 has left.
    fn can_wait(&self) -> bool
        ensures { result ≡ true → set_of self.now ≡ purged self.now.image (unwrap_or self.now.passed 0) }
    {
        match self.passed {
            Some(_) => true,
            None => self.image.elements().count_expired(0) == 0,
        }
    }

    /// Gives the element at place `i` of the image the expiry 0, which deletes it from the set.
    /// Returns its id.
    fn mark(&mut self, alloc: Global, i: u64) -> Result<u64, Memory>
        requires within { i < length self.old.image.elements }
        requires live { set_of self.old ≡ purged self.old.image (unwrap_or self.old.passed 0) }
        requires falls { length (staying self.old.passed (without_at self.old.image i)).elements + 1 ≡ self.old.count }
        ensures id { IfOk result (λ id. id ≡ (element_at self.old.image i).id) }
        ensures left { OnOk result (set_of self.new ≡ staying self.old.passed (without_at self.old.image i)) }
        ensures err { OnErr result (set_of self.new ≡ set_of self.old) }
    {
        let id = self.image.elements().at(i).id;
        self.image.renew(alloc, i, Some(0))?;
        self.passed = Some(self.passed.unwrap_or(0));
        self.count -= 1;
        Ok(id)
    }
}
