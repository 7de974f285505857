ghost use Rattle.std.specs.Prelude.{◌≡◌, ◌<◌, ◌≤◌, List, ℕ, length, Option, IfOk};
ghost use Rattle.std.specs.Io.KnownBytes.{WriteAppends};
ghost use Rattle.pip_base.specs.Causes.{HasCause};

use crate::shelf::Failed;

/// Where bytes go.
pub trait Sink {
    /// The bytes taken so far, if they are known.
    ghost taken: { Self → Option (List ℕ) };

    /// How often the outside has failed.
    ghost faults: { Self → ℕ };

    /// Writes bytes from the front of the piece, at least 1, and returns how many. A failure takes
    /// none.
    fn write(&mut self, piece: &[u8]) -> Result<usize, Failed>
        requires { 0 < length piece.now }
        ensures bound { IfOk result (λ n. (0 < n) × (n ≤ length piece.now)) }
        ensures bytes { WriteAppends (taken self.old) (taken self.new) result piece.now }
        ensures cause { HasCause (faults self.old) (faults self.new) result };
}
