ghost use Rattle.std.specs.Prelude.{◌≡◌, List, [], ℕ, Bool, true, false, Option, Some, None, IsNone, IfSome, cond};

use crate::notes::Notes;
use std::alloc::Global;

/// Notes in memory, for tests. After memory has run out, the notes are unknown.
#[derive(Drop)]
pub struct MemNotes {
    bytes: Vec<u8>,
    is_known: bool,
}

impl MemNotes {
    /// Notes without a text. It takes no memory.
    pub fn new(alloc: Global) -> MemNotes
        ensures bytes { result.bytes.items ≡ [] }
        ensures known { result.is_known ≡ true }
    {
        MemNotes {
            bytes: Vec::new(alloc),
            is_known: true,
        }
    }

    /// The bytes noted so far, if they are known.
    pub fn bytes(&self) -> Option<&[u8]>
        ensures some { IfSome result (λ bytes. (self.now.is_known ≡ true) × (bytes.now ≡ self.now.bytes.items)) }
        ensures none { IsNone result → self.now.is_known ≡ false }
    {
        self.is_known.then_some(self.bytes.as_slice())
    }
}

impl Notes for MemNotes {
    ghost told = { λ n. cond n.is_known (Some n.bytes.items) None };

    fn tell(&mut self, text: &[u8]) {
        if self.bytes.extend_from_slice(text).is_err() {
            self.is_known = false;
        }
    }
}
