//! A control thread at work: it submits its section, one transaction after another.
ghost use Rattle.std.specs.Prelude.{◌≡◌, ◌+◌, ◌≤◌, ◌<◌, [], ◌∷◌, All, IfOk, OnOk, Some, true, false, not, length, take, drop, slice_get};
ghost use Rattle.set_model.specs.Runnable.{EndsClosed, IsRunnableStep, opens};
ghost use Rattle.control_desk.specs.Woven.{IsTransaction};
ghost use Rattle.set_model.specs.declared.script.Step.{Step as OneStep};
ghost use Rattle.control_desk.specs.Work.{HasSubmitted, HasDone, HasGoneOn, transactions};

use crate::bell::Bell;
use crate::clerk::{Clerk, DeskError};
use set_model::{Memory, Step, Steps};
use std::sync::Wait;

/// Submits a transaction until it isn't stale. `turns` counts the submissions.
fn submit_again<R: Wait, B: Bell>(
    rt: &R,
    clerk: &mut Clerk,
    steps: &[Step],
    keep_going: bool,
    bell: &B,
    turns: &mut u64,
) -> Result<(), Memory>
    requires transaction { IsTransaction steps.now }
    requires fits { All (IsRunnableStep clerk.old.schema) steps.now }
    requires left { 0 < clerk.old.left }
    ensures { OnOk result (HasSubmitted steps.now keep_going clerk.old clerk.new) }
{
    for _ in rt.forever() {
        bell.before(clerk.number(), *turns);
        *turns = turns.saturating_add(1);
        match clerk.submit_steps(rt, steps, keep_going) {
            Ok(_) => return Ok(()),
            Err(DeskError::Stale { .. }) => {}
            Err(DeskError::Memory) => return Err(Memory),
        }
    }
    unreachable!()
}

/// Whether a step ends its transaction.
fn ends(step: &Step) -> bool
    ensures { opens (Some step.now) ≡ not result }
{
    match step {
        Step::Commit { .. } | Step::Abort => true,
        Step::Change { .. } | Step::Flush { .. } => false,
    }
}

/// Takes step `i` of a section into the open transaction, which begins with step `from`. Submits the
/// transaction if the step ends it. Returns with which step the open transaction then begins.
fn go_on<R: Wait, B: Bell>(
    rt: &R,
    clerk: &mut Clerk,
    section: &[Step],
    from: usize,
    i: usize,
    keep_going: bool,
    bell: &B,
    turns: &mut u64,
) -> Result<usize, Memory>
    requires within { (from ≤ i) × (i < length section.now) }
    requires pending { All (λ s. opens (Some s) ≡ true) (drop from (take i section.now)) }
    requires fits { All (IsRunnableStep clerk.old.schema) section.now }
    requires left { (step : OneStep) → slice_get section.now i ≡ Some step → transactions (step ∷ []) ≤ clerk.old.left }
    ensures { IfOk result (HasGoneOn section.now i from keep_going clerk.old clerk.new) }
{
    let step = &section[i];
    if ends(step) {
        submit_again(rt, clerk, &section[from..i + 1], keep_going, bell, turns)?;
        return Ok(i + 1);
    }
    Ok(from)
}

/// Submits the steps of a section, one transaction after another. A stale transaction is submitted
/// again.
pub(crate) fn submit_all<R: Wait, B: Bell>(
    rt: &R,
    clerk: Clerk,
    steps: &Steps,
    keep_going: bool,
    bell: &B,
) -> Result<Clerk, Memory>
    requires fits { All (IsRunnableStep clerk.schema) steps.now }
    requires closed { EndsClosed steps.now }
    requires left { transactions steps.now ≤ clerk.left }
    requires newcomer { clerk.seen ≡ [] }
    ensures { IfOk result (λ c. HasDone steps.now keep_going clerk c) }
{
    let mut clerk = clerk;
    let section = steps.as_slice();
    let mut from = 0;
    let mut turns = 0;
    'steps: for i in 0..section.len() {
        from = go_on(
            rt, &mut clerk, section, from, i, keep_going, bell, &mut turns,
        )?;
    }
    Ok(clerk)
}
