ghost use Rattle.std.specs.Prelude.{◌≡◌, ◌≢◌, ◌+◌, ◌-◌, ◌<◌, ◌≤◌, ◌^◌, List, [], ◌∷◌, ◌++◌, ℕ, length, Option, IfOk, OnOk, OnErr, Err};
ghost use Rattle.std.specs.Io.{ReadsAtMost};
ghost use Rattle.std.specs.Io.KnownBytes.{ReadConsumes};
ghost use Rattle.pip_base.specs.Causes.{HasCause, Rose};
ghost use Rattle.pip_base.specs.Picks.{IsPickOf, KeepsLeft};

use std::alloc::Global;
use std::io;

/// The outside failed: a file isn't there or can't be read, or a write was refused.
#[derive(Clone, Copy, Debug, PartialEq, Eq)]
pub struct Failed;

/// What the system says of a file that can't be opened or read, or of an output that takes no more.
#[derive(Clone, Copy, Debug, PartialEq, Eq)]
pub enum FaultKind {
    /// There is no file of that name.
    NotFound,
    /// A directory has that name.
    IsDirectory,
    /// The permission to read or write it is missing.
    NotPermitted,
    /// The device has no space left.
    NoSpace,
    /// Nobody reads the pipe any more.
    Closed,
    /// Anything else, such as an input that breaks off.
    Other,
}

impl FaultKind {
    /// The kind of a failure that the system reports.
    pub(crate) fn of(error: &io::Error) -> FaultKind {
        match error.kind() {
            io::ErrorKind::NotFound => FaultKind::NotFound,
            io::ErrorKind::IsADirectory => FaultKind::IsDirectory,
            io::ErrorKind::PermissionDenied => FaultKind::NotPermitted,
            io::ErrorKind::StorageFull => FaultKind::NoSpace,
            io::ErrorKind::BrokenPipe => FaultKind::Closed,
            _ => FaultKind::Other,
        }
    }
}

/// Why no file was picked.
#[derive(Clone, Copy, Debug, PartialEq, Eq)]
pub enum PickError {
    /// There is no such file, or it can't be opened.
    Failed,
    /// Out of memory.
    Memory,
}

/// Files by their names.
pub trait Shelf {
    /// The bytes under a name, if they are known.
    ghost told: { Self → List ℕ → Option (List ℕ) };

    /// Which numbers were given to files.
    ghost is_picked: { Self → ℕ → Type 0 };

    /// What a picked file has left, if it is known.
    ghost left: { Self → ℕ → Option (List ℕ) };

    /// The names that were asked for.
    ghost asked: { Self → List (List ℕ) };

    /// How often the outside has failed.
    ghost faults: { Self → ℕ };

    /// A new number for the file of that name. All bytes of the file are left.
    fn pick(&mut self, alloc: Global, name: &str) -> Result<u32, PickError>
        requires { length (asked self.old) < 4294967295 }
        ensures ok { IfOk result (λ n. IsPickOf (is_picked self.old) (is_picked self.new) n × (left self.new n ≡ told self.old name.now)) }

        // The name joins those asked for, also if the pick fails. `Memory` changes nothing.
        ensures asked { OnOk result (asked self.new ≡ asked self.old ++ name.now ∷ []) }
        ensures asked_in_vain { result ≡ Err PickError.Failed → asked self.new ≡ asked self.old ++ name.now ∷ [] }
        ensures memory { result ≡ Err PickError.Memory → (asked self.new ≡ asked self.old) × (faults self.new ≡ faults self.old) }

        // The bytes under names stay the same, and so does what is left of the files picked before.
        ensures told { (name : List ℕ) → told self.new name ≡ told self.old name }
        ensures kept { KeepsLeft (is_picked self.old) (is_picked self.new) (left self.old) (left self.new) }

        // A failure has its cause.
        ensures later { faults self.old ≤ faults self.new }
        ensures cause { result ≡ Err PickError.Failed → Rose (faults self.old) (faults self.new) }
        ensures no_fault { OnOk result (faults self.new ≡ faults self.old) };

    /// Reads the file's next bytes into the front of `into`, and returns how many. 0 is the end of the
    /// file.
    fn read(&mut self, file: u32, into: &mut [u8]) -> Result<usize, Failed>
        requires picked { is_picked self.old file }
        requires room { 0 < length into.old }
        ensures bound { ReadsAtMost result into.new }
        ensures bytes { ReadConsumes (left self.old file) (left self.new file) result into.new }

        // Names and their bytes stay the same, and so do all other files.
        ensures told { (name : List ℕ) → told self.new name ≡ told self.old name }
        ensures asked { asked self.new ≡ asked self.old }
        ensures kept { (m : ℕ) → is_picked self.old m → is_picked self.new m }
        ensures others { (m : ℕ) → m ≢ file → left self.new m ≡ left self.old m }
        ensures cause { HasCause (faults self.old) (faults self.new) result };

    /// What the system said of the latest failure. Before the first failure the answer means nothing.
    fn fault_kind(&self) -> FaultKind;
}
