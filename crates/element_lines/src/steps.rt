//! The steps of a script, and the sets of packets.
ghost use Rattle.std.specs.Prelude.{◌≡◌, ◌++◌, IfOk, OnOk, map};
ghost use Rattle.element_lines.specs.Additions.{all_of, on_line as set_on_line, one_a_line as set_apart, sets_of as sets_in};

use set_model::{Duplicate, Keys, Memory, Packets, Sections, Step, Steps};
use std::alloc::Global;

/// Adds copies of steps after others.
fn add_steps(alloc: Global, steps: &Steps, all: &mut Steps) -> Result<(), Memory>
    ensures { OnOk result (all.new ≡ all.old ++ steps.now) }
{
    'steps: for step in steps.as_slice() {
        all.push(step.copy(alloc)?)?;
    }
    Ok(())
}

/// The steps of all sections, in their order.
pub(crate) fn steps_of(alloc: Global, sections: &Sections) -> Result<Steps, Memory>
    ensures { IfOk result (λ steps. steps ≡ all_of sections.now) }
{
    let mut all = Steps::new(alloc);
    'sections: for steps in sections.as_slice() {
        add_steps(alloc, steps, &mut all)?;
    }
    Ok(all)
}

/// A copy of a step, on another line.
fn on_line(alloc: Global, line: u64, step: &Step) -> Result<Step, Memory>
    ensures { IfOk result (λ other. other ≡ set_on_line line step.now) }
{
    Ok(match step {
        Step::Change {
            set,
            verb,
            element,
            now,
            ..
        } => Step::Change {
            line,
            set: *set,
            verb: *verb,
            element: element.copy(alloc)?,
            now: *now,
        },
        Step::Flush { set, now, .. } => Step::Flush {
            line,
            set: *set,
            now: *now,
        },
        Step::Commit { now } => Step::Commit { now: *now },
        Step::Abort => Step::Abort,
    })
}

/// Copies of steps, each on a line of its own.
pub(crate) fn one_a_line(alloc: Global, steps: &Steps) -> Result<Steps, Memory>
    ensures { IfOk result (λ apart. apart ≡ set_apart steps.now) }
{
    let mut apart = Steps::new(alloc);
    'steps: for step in steps.as_slice() {
        let line = apart.len();
        apart.push(on_line(alloc, line, step)?)?;
    }
    Ok(apart)
}

/// Adds the sets of packets after others.
fn add_sets(packets: &Packets, sets: &mut Vec<u32>) -> Result<(), Memory>
    ensures { OnOk result (sets.new.items ≡ sets.old.items ++ map (λ p. p.set) packets.now) }
{
    'packets: for packet in packets.as_slice() {
        sets.push(packet.set)?;
    }
    Ok(())
}

/// The sets in which the packets of a key file are looked up, by the packets' numbers.
pub(crate) fn sets_of(alloc: Global, keys: &Keys) -> Result<Vec<u32>, Memory>
    ensures { IfOk result (λ sets. sets.items ≡ sets_in keys.now) }
{
    let mut sets = Vec::new(alloc);
    'sections: for packets in keys.as_slice() {
        add_sets(packets, &mut sets)?;
    }
    Ok(sets)
}
