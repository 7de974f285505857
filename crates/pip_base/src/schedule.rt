ghost use Rattle.std.specs.Prelude.{◌≡◌, ◌+◌, ◌-◌, ◌^◌, ◌≤◌, ◌≢◌, List, [], ◌∷◌, ◌++◌, min, Err, OnOk, OnErr, ℕ};
ghost use Rattle.std.specs.List.{list_any};
ghost use Rattle.pip_base.specs.Causes.{Rose};

use crate::shelf::PickError;
use std::alloc::Global;
use std::marker::Model;

/// How many calls there were, which of them fail, and how many faults there were. Both counts stay at
/// `u64::MAX` once they reach it.
#[derive(Drop)]
pub(crate) struct Schedule {
    calls: u64,
    failing: Vec<u64>,
    faults: u64,
}

impl Model for Schedule {
    ghost use Rattle.pip_base.specs.Schedule.{Plan};

    ghost Value = { Plan };

    ghost view = { λ s. record { calls = s.calls; failing = s.failing.items; faults = s.faults } };
}

impl Schedule {
    ghost use Rattle.pip_base.specs.Schedule.{new_plan, one_call_more, fails_next, faulted};

    pub(crate) fn new(alloc: Global) -> Schedule
        ensures { result ≡ new_plan }
    {
        Schedule {
            calls: 0,
            failing: Vec::new(alloc),
            faults: 0,
        }
    }

    pub(crate) fn fail_at(&mut self, call: u64) -> Result<(), PickError>
        ensures ok { OnOk result (self.new ≡ record self.old { failing = self.old.failing ++ call ∷ [] }) }
        ensures err { result ≡ Err PickError.Memory → self.new ≡ self.old }
        ensures memory { result ≢ Err PickError.Failed }
    {
        match self.failing.push(call) {
            Ok(()) => Ok(()),
            Err(_) => Err(PickError::Memory),
        }
    }

    /// Counts a call, and says whether it is to fail.
    pub(crate) fn next(&mut self) -> bool
        ensures fails { result ≡ fails_next self.old }
        ensures counted { self.new ≡ one_call_more self.old }
    {
        self.calls = self.calls.saturating_add(1);
        let call = self.calls;
        self.failing.iter().any(|at| *at == call)
    }

    /// Counts a fault.
    pub(crate) fn fault(&mut self)
        ensures faulted { self.new ≡ faulted self.old }
        ensures later { self.old.faults ≤ self.new.faults }
        ensures rose { Rose self.old.faults self.new.faults }
    {
        self.faults = self.faults.saturating_add(1);
    }
}
