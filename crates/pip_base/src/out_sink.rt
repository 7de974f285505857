ghost use Rattle.std.specs.Prelude.{◌≡◌, ◌≤◌, ℕ, List, Option, None};
ghost use Rattle.pip_base.specs.Causes.{Rose};

use crate::shelf::{Failed, FaultKind};
use crate::sink::Sink;
use std::io;

/// The standard output. Contracts say nothing of what it took. A write that takes no byte of a piece is
/// a fault.
#[derive(Drop)]
pub struct OutSink<'a, R: Print> {
    rt: &'a R,
    faults: u64,
    fault_kind: FaultKind,
}

impl<'a, R: Print> OutSink<'a, R> {
    /// A sink that has seen no fault.
    pub fn new(rt: &'a R) -> OutSink<'a, R>
        ensures { result.faults ≡ 0 }
    {
        OutSink {
            rt,
            faults: 0,
            fault_kind: FaultKind::Other,
        }
    }

    /// What the system said of the last fault. It is only for a person, so no clause is about it.
    pub fn fault_kind(&self) -> FaultKind {
        self.fault_kind
    }

    /// Counts a fault of this kind.
    fn fault(&mut self, kind: FaultKind)
        ensures rose { Rose self.old.faults self.new.faults }
        ensures later { self.old.faults ≤ self.new.faults }
    {
        self.faults = self.faults.saturating_add(1);
        self.fault_kind = kind;
    }
}

impl<R: Print> Sink for OutSink<'_, R> {
    ghost taken = { λ _. None };

    ghost faults = { λ s. s.faults };

    fn write(&mut self, piece: &[u8]) -> Result<usize, Failed> {
        use std::io::Write;
        let mut out = io::writer(self.rt);
        match out.write(piece) {
            Ok(count) if count > 0 => Ok(count),
            Ok(_) => {
                self.fault(FaultKind::Other);
                Err(Failed)
            }
            Err(error) => {
                self.fault(FaultKind::of(&error));
                Err(Failed)
            }
        }
    }
}
