//! A change of a set, and why it was refused.
ghost use Rattle.std.specs.Prelude.{◌≡◌, ◌<◌, length, IfOk};
ghost use Rattle.set_model.specs.SetState.{add as added_to, removed};
ghost use Rattle.set_model.specs.Control.{as_added, as_created, as_deleted, as_destroyed, changed_set};
ghost use Rattle.set_space.specs.Open.{FitsSet, IsChange};
ghost use Rattle.packet_pool.specs.Running.{HasCome};

use gen_publish::Control;
use pipapo_image::ChangeError;
use set_model::{Memory, NewElement, Parts, Verb, Why};

fn add(
    control: &mut Control,
    set: u32,
    element: &NewElement,
    now: u64,
) -> Result<Option<Why>, Memory>
    requires set { set < length control.old.work.sets }
    requires fits { FitsSet control.old.work set element.now.parts }
    ensures others { control.new ≡ record control.old { work = control.new.work } }
    ensures change { IfOk result (λ why. IsChange (λ s t. HasCome (as_added (added_to s element.now now)) why t) control.old.work set control.new.work) }
{
    match control.insert(set, element, now) {
        Ok(_) => Ok(None),
        Err(ChangeError::Refused(why)) => Ok(Some(why)),
        Err(ChangeError::Memory) => Err(Memory),
    }
}

fn create(
    control: &mut Control,
    set: u32,
    element: &NewElement,
    now: u64,
) -> Result<Option<Why>, Memory>
    requires set { set < length control.old.work.sets }
    requires fits { FitsSet control.old.work set element.now.parts }
    ensures others { control.new ≡ record control.old { work = control.new.work } }
    ensures change { IfOk result (λ why. IsChange (λ s t. HasCome (as_created s (added_to s element.now now)) why t) control.old.work set control.new.work) }
{
    match control.create(set, element, now) {
        Ok(_) => Ok(None),
        Err(ChangeError::Refused(why)) => Ok(Some(why)),
        Err(ChangeError::Memory) => Err(Memory),
    }
}

fn delete(control: &mut Control, set: u32, parts: &Parts, now: u64) -> Result<Option<Why>, Memory>
    requires { set < length control.old.work.sets }
    ensures others { control.new ≡ record control.old { work = control.new.work } }
    ensures change { IfOk result (λ why. IsChange (λ s t. HasCome (as_deleted s (removed s parts.now now)) why t) control.old.work set control.new.work) }
{
    match control.delete(set, parts, now) {
        Ok(_) => Ok(None),
        Err(ChangeError::Refused(why)) => Ok(Some(why)),
        Err(ChangeError::Memory) => Err(Memory),
    }
}

fn destroy(control: &mut Control, set: u32, parts: &Parts, now: u64) -> Result<Option<Why>, Memory>
    requires { set < length control.old.work.sets }
    ensures others { control.new ≡ record control.old { work = control.new.work } }
    ensures change { IfOk result (λ why. IsChange (λ s t. HasCome (as_destroyed s (removed s parts.now now)) why t) control.old.work set control.new.work) }
{
    match control.destroy(set, parts, now) {
        Ok(_) => Ok(None),
        Err(_) => Err(Memory),
    }
}

/// Changes an element of a set, or says why not. `now` is in milliseconds.
pub(crate) fn change(
    control: &mut Control,
    set: u32,
    verb: Verb,
    element: &NewElement,
    now: u64,
) -> Result<Option<Why>, Memory>
    requires set { set < length control.old.work.sets }
    requires fits { FitsSet control.old.work set element.now.parts }
    ensures others { control.new ≡ record control.old { work = control.new.work } }
    ensures change { IfOk result (λ why. IsChange (λ s t. HasCome (changed_set verb s element.now now) why t) control.old.work set control.new.work) }
{
    match verb {
        Verb::Add => add(control, set, element, now),
        Verb::Create => create(control, set, element, now),
        Verb::Delete => delete(control, set, &element.parts, now),
        Verb::Destroy => destroy(control, set, &element.parts, now),
    }
}
