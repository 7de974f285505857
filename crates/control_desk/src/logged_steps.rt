//! The steps of a logged transaction.
ghost use Rattle.std.specs.Prelude.{◌≡◌, length, IfOk};

use set_model::{Memory, Step};
use std::alloc::Global;
use std::marker::Model;
use std::snapshot::Snapshot;

/// The steps of a logged transaction. Contracts see the steps. The program has only their number, since
/// the steps stay in the section or list that was submitted. So they take no memory here.
#[derive(Drop)]
pub struct LoggedSteps {
    // A snapshot has no bytes, so the vector has only its length.
    steps: Vec<Snapshot<Step>>,
}

impl Model for LoggedSteps {
    ghost use Rattle.std.specs.Prelude.{List, map};
    ghost use Rattle.set_model.specs.declared.script.Step.{Step as OneStep};

    ghost Value = { List OneStep };

    ghost view = { λ s. map (λ step. step.value) s.steps.items };
}

impl LoggedSteps {
    /// Logs steps that somebody else owns.
    pub(crate) fn of(alloc: Global, steps: &[Step]) -> Result<LoggedSteps, Memory>
        ensures { IfOk result (λ logged. logged ≡ steps.now) }
    {
        let mut logged = Vec::new(alloc);
        for step in steps {
            logged.push(Snapshot::of(step))?;
        }
        Ok(LoggedSteps { steps: logged })
    }

    /// How many steps there are.
    pub fn len(&self) -> u64
        ensures { result ≡ length self.now }
    {
        self.steps.len() as u64
    }
}
