//! The steps of a desk in the order in which they were done.
ghost use Rattle.std.specs.Prelude.{◌≡◌, ◌≤◌, ◌<◌, ◌-◌, ◌∷◌, ◌++◌, [], List, length, map, take, drop, slice_get, slice_set, IfOk, OnOk, Some};
ghost use Rattle.set_model.specs.declared.script.Step.{Step as OneStep};
ghost use Rattle.control_desk.specs.declared.entry.Entry.{Entry as Logged};
ghost use Rattle.control_desk.specs.Woven.{IsWoven};

use control_desk::{Entry, Log};
use set_model::{Memory, Sections, Steps};
use std::alloc::Global;
use std::mem::replace;

/// Takes the last `count` steps of a section. The steps before them stay.
fn take_last(alloc: Global, section: &mut Steps, count: u64) -> Result<Steps, Memory>
    requires { count ≤ length section.old }
    ensures { IfOk result (λ last. (section.new ++ last ≡ section.old) × (length last ≡ count)) }
{
    if count == section.len() {
        return Ok(replace(section, Steps::new(alloc)));
    }
    let mut last = Vec::with_capacity(alloc, count as usize)?;
    for _ in 0..count {
        last.push(section.remove(section.len() - 1))?;
    }
    last.reverse();
    Ok(Steps::from_vec(last))
}

/// Takes the last `count` steps of the section at a place.
fn take_at(alloc: Global, sections: &mut [Steps], place: usize, count: u64) -> Result<Steps, Memory>
    requires place { place < length sections.old }
    requires count { (section : List OneStep) → slice_get sections.old place ≡ Some section → count ≤ length section }
    ensures { IfOk result (λ last. (rest : List OneStep) × (sections.new ≡ slice_set sections.old place rest) × (slice_get sections.old place ≡ Some (rest ++ last)) × (length last ≡ count)) }
{
    take_last(alloc, &mut sections[place], count)
}

/// Takes the steps of a log's last entry out of their section.
fn take_entry(alloc: Global, sections: &mut Sections, entry: &Entry) -> Result<Steps, Memory>
    requires { (log : List Logged) × IsWoven sections.old (log ++ entry.now ∷ []) }
    ensures { IfOk result (λ steps. (log : List Logged) → IsWoven sections.old (log ++ entry.now ∷ []) → (steps ≡ entry.now.steps) × IsWoven sections.new log) }
{
    let place = entry.clerk as usize - 1;
    take_at(alloc, sections.as_mut_slice(), place, entry.steps.len())
}

/// The steps in the order in which they were done: the first section, and then the log's transactions.
/// They leave their sections, the last transaction first.
pub(crate) fn done_in_order(
    alloc: Global,
    first: Steps,
    sections: Sections,
    log: Log,
) -> Result<Sections, Memory>
    requires { IsWoven sections log }
    ensures { IfOk result (λ done. done ≡ first ∷ map (λ e. e.steps) log) }
{
    let mut sections = sections;
    let mut entries = log.into_entries();
    let mut done = Vec::new(alloc);
    'entries: while let Some(entry) = entries.pop() {
        let steps = take_entry(alloc, &mut sections, &entry)?;
        done.push(steps)?;
    }
    done.push(first)?;
    done.reverse();
    Ok(Sections::from_vec(done))
}
