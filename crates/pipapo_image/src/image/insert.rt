ghost use Rattle.std.specs.Prelude.{◌≡◌, ◌+◌, ◌-◌, ◌<◌, ◌^◌, true, length, OnOk, OnErr, IfOk, None};
ghost use Rattle.set_model.specs.Key.{parts_fit};
ghost use Rattle.set_model.specs.SetState.{add, crowded_field, renewed, with_element};
ghost use Rattle.pipapo_image.specs.Index.Built.{Built};
ghost use Rattle.pipapo_image.specs.Index.Grow.{IsColumn};
ghost use Rattle.pipapo_image.specs.Image.Insert.{IsAnswer, addition_said};
ghost use Rattle.pipapo_image.specs.Image.Decision.{CanBeDone, comes, set_left};

use crate::answers::{Added, ChangeError};
use crate::image::SetImage;
use crate::image::decision::Decision;
use crate::index::place::rules_before;
use crate::index::scratch::Scratch;
use set_model::{Block, Duplicate, Element, Listed, Memory, NewElement};
use std::alloc::Global;

impl SetImage {
    /// Adds an element at the end of the list, renews an element of the same intervals, or returns
    /// the refusal. `now` is in milliseconds.
    ///
    /// # Errors
    ///
    /// `Overlap` if a live element is in the way: it holds the start key and has other intervals,
    /// or else holds the end key. In a disjoint set each live element that shares a key is in the
    /// way. Then `Full`. Then `RulesFull`, with the first field that would have too many rules.
    /// `Memory` if memory runs out. Each leaves the set as it was.
    pub fn insert(
        &mut self,
        alloc: Global,
        element: &NewElement,
        now: u64,
        scratch: &mut Scratch,
    ) -> Result<Added, ChangeError>
        requires { parts_fit self.old.kinds element.now.parts ≡ true }
        ensures { IsAnswer (add self.old element.now now) result self.old self.new }
    {
        let decision = self.decide(alloc, element, now, scratch)?;
        let came = self.carry_out(alloc, decision, element)?;
        Ok(came)
    }

    /// Carries out a decision on this set, or on an equal one, and on this element.
    ///
    /// # Errors
    /// `Memory` if memory runs out. The set is as it was.
    pub fn carry_out(
        &mut self,
        alloc: Global,
        decision: Decision,
        element: &NewElement,
    ) -> Result<Added, Memory>
        requires fit { parts_fit self.old.kinds element.now.parts ≡ true }
        requires can { CanBeDone self.old element.now.parts decision }
        ensures came { IfOk result (λ came. addition_said came ≡ comes decision self.old.next) }
        ensures left { IfOk result (λ _. self.new ≡ set_left self.old element.now decision) }
        ensures err { OnErr result (self.new ≡ self.old) }
    {
        match decision {
            Decision::Stays { id } => Ok(Added::Already { id }),
            Decision::Renews { place, id } => {
                self.renew(alloc, place, element.expiry)?;
                Ok(Added::Renewed { id })
            }
            Decision::Adds { columns } => Ok(Added::New {
                id: self.push_new(alloc, &columns, element)?,
            }),
        }
    }

    /// Gives the element at place `i` another expiry, in milliseconds. The call takes all memory
    /// before the first change.
    ///
    /// # Errors
    /// `Memory` if memory runs out. The set is as it was.
    pub fn renew(&mut self, alloc: Global, i: u64, expiry: Option<u64>) -> Result<(), Memory>
        requires { i < length self.old.elements }
        ensures ok { OnOk result (self.new ≡ renewed self.old i expiry) }
        ensures err { OnErr result (self.new ≡ self.old) }
    {
        let _elements = self.elements.len();
        let first = rules_before(&self.index.ends, i);
        let end = rules_before(&self.index.ends, i + 1);
        let n = end - first;
        self.index.own_ends(first, n)?;
        self.elements.set_expiry(alloc, i, expiry)?;
        self.index.ends.set_expiry(first, n, expiry);
        Ok(())
    }

    /// Puts a new element, which is within all limits, at the end. The call takes all memory before
    /// the first change.
    fn push_new(
        &mut self,
        alloc: Global,
        columns: &[Listed<Block>],
        element: &NewElement,
    ) -> Result<u64, Memory>
        requires fit { parts_fit self.old.kinds element.now.parts ≡ true }
        requires columns { Built (IsColumn self.old.kinds element.now.parts) columns.now (length self.old.kinds) }
        requires few { crowded_field self.old element.now.parts ≡ None }
        requires next { self.old.next < 2 ^ 64 - 1 }
        ensures ok { IfOk result (λ id. (id ≡ self.old.next) × (self.new ≡ with_element self.old element.now)) }
        ensures err { OnErr result (self.new ≡ self.old) }
    {
        let id = self.next;
        let added = Element {
            id,
            parts: element.parts.copy(alloc)?,
            expiry: element.expiry,
            comment: element.comment.copy(alloc)?,
        };
        self.append_element(alloc, columns, added)?;
        self.next = id + 1;
        Ok(id)
    }
}
