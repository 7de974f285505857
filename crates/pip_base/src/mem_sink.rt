ghost use Rattle.std.specs.Prelude.{◌≡◌, ◌≢◌, ◌+◌, ◌-◌, ◌<◌, ◌≤◌, ◌^◌, List, [], ◌∷◌, ◌++◌, ℕ, length, take, replicate, Option, Some, None, Err, IfOk, OnOk, OnErr};

use crate::schedule::Schedule;
use crate::shelf::{Failed, PickError};
use crate::sink::Sink;
use std::alloc::Global;
use std::marker::Model;

/// A sink in memory, for tests. It takes at most so many bytes at once and so many in all, and fails at
/// the writes that a test names. A write fails, too, if there is no room left.
#[derive(Drop)]
pub struct MemSink {
    space: Vec<u8>,
    count: usize,
    most: usize,
    schedule: Schedule,
}

impl Model for MemSink {
    ghost use Rattle.std.specs.Prelude.{take, length, ◌≤◌, ◌<◌};
    ghost use Rattle.pip_base.specs.MemSink.{Sunk};

    ghost Value = { Sunk };

    ghost view = { λ s. record { taken = take s.count s.space.items; room = length s.space.items; most = s.most; plan = s.schedule } };

    ghost invariant = { λ s. (s.count ≤ length s.space.items) × (0 < s.most) };
}

impl MemSink {
    ghost use Rattle.pip_base.specs.MemSink.{empty_sink};

    /// A sink that takes at most `most` bytes at once and `room` bytes in all. It allocates the room
    /// first. `Memory` is its one error.
    pub fn new(alloc: Global, most: usize, room: usize) -> Result<MemSink, PickError>
        requires { 0 < most }
        ensures ok { IfOk result (λ s. s ≡ empty_sink most room) }
        ensures memory { result ≢ Err PickError.Failed }
    {
        match vec![in alloc; 0u8; room] {
            Ok(space) => Ok(MemSink {
                space,
                count: 0,
                most,
                schedule: Schedule::new(alloc),
            }),
            Err(_) => Err(PickError::Memory),
        }
    }

    /// The bytes taken.
    pub fn bytes(&self) -> &[u8]
        ensures { result.now ≡ self.now.taken }
    {
        &self.space[..self.count]
    }

    /// Adds a write to those that fail; writes count from 1. `Memory` is its one error, and changes
    /// nothing.
    pub fn fail_at(&mut self, call: u64) -> Result<(), PickError>
        ensures ok { OnOk result (self.new ≡ record self.old { plan = record self.old.plan { failing = self.old.plan.failing ++ call ∷ [] } }) }
        ensures err { OnErr result (self.new ≡ self.old) }
        ensures memory { result ≢ Err PickError.Failed }
    {
        self.schedule.fail_at(call)
    }
}

impl Sink for MemSink {
    ghost taken = { λ s. Some s.taken };

    ghost faults = { λ s. s.plan.faults };

    fn write(&mut self, piece: &[u8]) -> Result<usize, Failed> {
        let left = self.space.len() - self.count;
        if self.schedule.next() || left == 0 {
            self.schedule.fault();
            return Err(Failed);
        }
        let taken = piece.len().min(self.most).min(left);
        let end = self.count + taken;
        self.space[self.count..end].copy_from_slice(&piece[..taken]);
        self.count = end;
        Ok(taken)
    }
}
