//! What the refused changes of a script met. The script is done once more, and the step that makes each element is noted.
ghost use Rattle.std.specs.Prelude.{◌≡◌, ◌≤◌, ◌^◌, true, All, length};
ghost use Rattle.set_model.specs.Runnable.{IsRunnableStep};
ghost use Rattle.set_space.specs.Open.{CanBeBuilt};
ghost use Rattle.key_answer.specs.Met.{has_few_fields as have_few_fields};

use crate::trail::{Addition, addition_of, try_add};
use gen_publish::Control;
use packet_pool::{OpenGate, do_step};
use pipapo_image::ChangeError;
use script_laws::{has_numbers, start_run, tells_refusal};
use set_model::{Events, Memory, Schema, Script, SetDecl, Step, Steps, Why, parts_fit};
use std::alloc::Global;

/// The most sets of a script.
const MOST_SETS: u64 = 64;

/// What a refused change met, as steps of the script.
#[derive(Clone, Copy)]
pub struct Met<'a> {
    /// The change itself.
    pub change: &'a Step,
    /// The addition that made the element in its way, if there is one.
    pub older: Option<&'a Step>,
}

/// For each set, the additions that made its elements, by the ids of the elements.
#[derive(Drop)]
struct Makers<'a> {
    sets: Vec<Vec<&'a Step>>,
}

impl<'a> Makers<'a> {
    /// No additions, for so many sets.
    fn new(alloc: Global, count: u64) -> Result<Makers<'a>, Memory> {
        let mut sets = Vec::new(alloc);
        for _set in 0..count {
            sets.push(Vec::new(alloc))?;
        }
        Ok(Makers { sets })
    }

    /// Notes the addition that made an element. Those from its id on were of a transaction that was taken back.
    fn note(&mut self, set: u32, id: u64, step: &'a Step) -> Result<(), Memory> {
        let place = set as usize;
        if place < self.sets.len() {
            self.sets[place].truncate(id as usize);
            self.sets[place].push(step)?;
        }
        Ok(())
    }

    /// The addition that made the element in a change's way, if there is one.
    fn in_way(&self, set: u32, why: Why) -> Option<&'a Step> {
        let (Why::Overlap { id } | Why::Exists { id }) = why else {
            return None;
        };
        match self.sets.get(set as usize) {
            Some(steps) => steps.get(id as usize).copied(),
            None => None,
        }
    }
}

/// Whether a set has 1 to 16 fields.
fn has_few_fields(set: &SetDecl) -> bool
    ensures { result ≡ have_few_fields set.now }
{
    let fields = set.kinds.len();
    1 <= fields && fields <= 16
}

/// Whether a control of these sets can be started.
fn can_start(schema: &Schema) -> bool
    ensures sets { result ≡ true → All CanBeBuilt schema.now }
    ensures few { result ≡ true → length schema.now ≤ 2 ^ 32 }
{
    schema.len() <= MOST_SETS && schema.as_slice().iter().all(|set| has_few_fields(set))
}

/// Whether a step is of a declared set, and a change's intervals fit the set's kinds.
fn is_runnable(schema: &Schema, step: &Step) -> bool
    ensures { result ≡ true → IsRunnableStep schema.now step.now }
{
    match step {
        Step::Change { set, element, .. } => match schema.as_slice().get(*set as usize) {
            Some(declared) => parts_fit(&declared.kinds, &element.parts),
            None => false,
        },
        Step::Flush { set, .. } => match schema.as_slice().get(*set as usize) {
            Some(_) => true,
            None => false,
        },
        Step::Commit { .. } | Step::Abort => true,
    }
}

/// A script that is done once more.
#[derive(Drop)]
struct Retrace<'a> {
    control: Control,
    failed: bool,
    keep_going: bool,
    makers: Makers<'a>,
    met: Vec<Met<'a>>,
}

impl<'a> Retrace<'a> {
    /// Notes what a refused change met. The refusal fails the transaction unless the run keeps going.
    fn refuse(&mut self, step: &'a Step, older: Option<&'a Step>) -> Result<(), Memory> {
        self.met.push(Met {
            change: step,
            older,
        })?;
        self.failed = !self.keep_going;
        Ok(())
    }

    /// Does an addition, in a transaction that hasn't failed.
    fn add(&mut self, step: &'a Step, addition: Addition<'a>) -> Result<(), Memory> {
        if !self.control.fits(addition.set, &addition.element.parts) {
            return Ok(());
        }
        match try_add(&mut self.control, addition) {
            Ok(Some(id)) => self.makers.note(addition.set, id, step),
            Ok(None) => Ok(()),
            Err(ChangeError::Refused(why)) => {
                let older = self.makers.in_way(addition.set, why);
                self.refuse(step, older)
            }
            Err(ChangeError::Memory) => Err(Memory),
        }
    }

    /// Does a step that makes no element.
    fn do_other(&mut self, alloc: Global, step: &'a Step) -> Result<(), Memory> {
        if !has_numbers(&self.control, 1) || !is_runnable(self.control.schema(), step) {
            return Ok(());
        }
        let mut events = Events::new(alloc);
        do_step(
            &mut self.control,
            &mut self.failed,
            self.keep_going,
            step,
            &mut events,
            &OpenGate,
        )?;
        if tells_refusal(events.as_slice()) {
            self.met.push(Met {
                change: step,
                older: None,
            })?;
        }
        Ok(())
    }

    /// Does a step.
    fn do_next(&mut self, alloc: Global, step: &'a Step) -> Result<(), Memory> {
        match addition_of(step) {
            Some(addition) if !self.failed => self.add(step, addition),
            _ => self.do_other(alloc, step),
        }
    }

    /// Does the steps of a section, until so many changes were refused.
    fn do_section(&mut self, alloc: Global, steps: &'a Steps, most: usize) -> Result<(), Memory> {
        self.failed = false;
        for step in steps.as_slice() {
            if self.met.len() >= most {
                return Ok(());
            }
            self.do_next(alloc, step)?;
        }
        Ok(())
    }
}

/// What the first refused changes of a script met, so many at most, in the order in which they were refused. The script is done
/// once more, so this takes the time of a run without packets. A step that fits no set is left out.
///
/// # Errors
///
/// `Memory` if memory runs out.
pub fn met_by<'a>(
    alloc: Global,
    script: &'a Script,
    keep_going: bool,
    most: usize,
) -> Result<Vec<Met<'a>>, Memory> {
    if !can_start(&script.schema) {
        return Ok(Vec::new(alloc));
    }
    let (control, _readers) = start_run(alloc, &script.schema, 1)?;
    let mut retrace = Retrace {
        control,
        failed: false,
        keep_going,
        makers: Makers::new(alloc, script.schema.len())?,
        met: Vec::new(alloc),
    };
    for steps in script.sections.as_slice() {
        retrace.do_section(alloc, steps, most)?;
    }
    Ok(retrace.met)
}
