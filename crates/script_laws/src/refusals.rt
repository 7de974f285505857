ghost use Rattle.std.specs.Prelude.{◌≡◌, ◌++◌, OnOk};
ghost use Rattle.std.specs.List.{list_any};
ghost use Rattle.set_model.specs.Control.{is_refusal as refuses};
ghost use Rattle.script_laws.specs.Reports.{has_failed as have_failed, refusal_in, refusals_in};

use set_model::{Event, Memory, Why};

/// A refused change of a run.
#[derive(Clone, Copy, Debug, PartialEq, Eq)]
pub struct Refusal {
    /// The number of the control thread of a desk that submitted it, from 1. It is 0 if the control ran alone.
    pub clerk: u32,
    /// The line of its script, from 1.
    pub line: u64,
    /// The number of its set among the declared ones, from 0.
    pub set: u32,
    /// Why it was refused, with the id of the element in its way if there is one.
    pub why: Why,
}

/// Whether an event reports that a change was refused.
pub fn tells_refusal(events: &[Event]) -> bool
    ensures { result ≡ list_any refuses events.now }
{
    events.iter().any(|event| event.is_refusal())
}

/// The refused change that an event of a control thread reports, if it reports one.
fn refusal_of(clerk: u32, event: &Event) -> Option<Refusal>
    ensures { result ≡ refusal_in clerk event.now }
{
    match *event {
        Event::Refused { line, set, why } => Some(Refusal {
            clerk,
            line,
            set,
            why,
        }),
        Event::Committed { .. } | Event::Aborted { .. } | Event::Dropped { .. } => None,
    }
}

/// Adds the refused changes that events of one control thread report.
///
/// # Errors
///
/// `Memory` if memory runs out. Some of them are then added.
pub fn add_refusals(clerk: u32, events: &[Event], refusals: &mut Vec<Refusal>) -> Result<(), Memory>
    ensures { OnOk result (refusals.new.items ≡ refusals.old.items ++ refusals_in clerk events.now) }
{
    for event in events {
        match refusal_of(clerk, event) {
            Some(refusal) => refusals.push(refusal)?,
            None => {}
        }
    }
    Ok(())
}

/// Whether the last transaction that events report failed.
pub fn has_failed(events: &[Event]) -> bool
    ensures { result ≡ have_failed events.now }
{
    match events.last() {
        Some(Event::Dropped { .. }) => true,
        _ => false,
    }
}
