//! The control threads of a script's later sections.
ghost use Rattle.std.specs.Prelude.{◌≡◌, ◌≤◌, ◌<◌, ◌+◌, ◌*◌, ◌^◌, ◌↔◌, All, IfOk, IsTrue, length};
ghost use Rattle.set_model.specs.Runnable.{EndsClosed, IsRunnableStep};
ghost use Rattle.control_desk.specs.Books.{IsClosed};
ghost use Rattle.control_desk.specs.Work.{IsRun};

use control_desk::{Bell, Log, open_desk, run_clerks};
use gen_publish::Control;
use script_laws::has_numbers;
use set_model::{Memory, Sections};
use std::alloc::Global;
use std::sync::Wait;
use std::thread::Threads;

/// The most steps of any of these sections.
fn longest(sections: &Sections) -> u64
    ensures { All (λ steps. length steps ≤ result) sections.now }
{
    let mut most = 0;
    for steps in sections.as_slice() {
        most = steps.len().max(most);
    }
    most
}

/// Whether there are numbers for so many generations of each of the control threads.
fn has_room(control: &Control, clerks: u32, each: u64) -> bool
    ensures { IsTrue result ↔ (control.now.work.base.number + clerks * each < 2 ^ 63) }
{
    match u64::from(clerks).checked_mul(each) {
        Some(all) => has_numbers(control, all),
        None => false,
    }
}

/// Does sections after a control, each by a control thread of its own, and returns the control and the log.
/// If there are no sections, it opens no desk.
pub(crate) fn run_later<R: Threads + Wait + Sync, B: Bell>(
    rt: &R,
    alloc: Global,
    control: Control,
    sections: &Sections,
    keep_going: bool,
    bell: &B,
) -> Result<(Control, Log), Memory>
    requires few { length sections.now ≤ 16 }
    requires steps { All (All (IsRunnableStep control.schema)) sections.now }
    requires closed { All EndsClosed sections.now }
    requires rests { IsClosed control }
    ensures { IfOk result (λ r. IsRun sections.now keep_going control.committed r.0 r.1) }
{
    control.known();
    if sections.len() == 0 {
        return Ok((control, Log::new(alloc)));
    }
    let count = sections.len() as u32;
    let each = longest(sections);
    if !has_room(&control, count, each) {
        return Err(Memory);
    }
    let clerks = open_desk(alloc, control, count, each)?;
    run_clerks(rt, alloc, clerks, sections, keep_going, bell)
}
