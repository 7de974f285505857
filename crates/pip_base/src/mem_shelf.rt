ghost use Rattle.std.specs.Prelude.{◌≡◌, ◌≢◌, ◌+◌, ◌-◌, ◌<◌, ◌≤◌, ◌^◌, List, [], ◌∷◌, ◌++◌, ℕ, length, map, position, slice_get, drop, nat_eq, Option, Some, None, Err, IfOk, OnOk, OnErr};
ghost use Rattle.std.specs.String.{string_bytes};
ghost use Rattle.std.specs.Cmp.Lexicographic.{pointwise};

use crate::schedule::Schedule;
use crate::shelf::{Failed, FaultKind, PickError, Shelf};
use std::alloc::Global;
use std::marker::Model;

/// A file's name and its bytes.
#[derive(Drop)]
struct StoredFile {
    name: String,
    bytes: Vec<u8>,
}

/// Which file was opened, by its place, and how many of its bytes were read.
#[derive(Clone, Copy, Debug, PartialEq, Eq)]
pub struct OpenFile {
    /// The place of the file among those of the shelf.
    pub place: usize,
    /// How many of its bytes were read.
    pub from: usize,
}

/// Files in memory, for tests. Its contracts know the bytes under each name. It keeps the names that it
/// was asked for, and fails at the calls that a test names. A pick of a name that isn't there fails,
/// too, as `NotFound`.
#[derive(Drop)]
pub struct MemShelf {
    files: Vec<StoredFile>,
    asked: Vec<String>,
    opened: Vec<OpenFile>,
    schedule: Schedule,
    fault_kind: FaultKind,
}

impl Model for MemShelf {
    ghost use Rattle.std.specs.Prelude.{map, length, ◌≤◌};
    ghost use Rattle.std.specs.String.{string_bytes};
    ghost use Rattle.pip_base.specs.MemShelf.{ShelfState, stored};

    ghost Value = { ShelfState };

    ghost view = { λ s. record { files = map stored s.files.items; asked = map string_bytes s.asked.items; opened = s.opened.items; plan = s.schedule } };

    ghost invariant = { λ s. length s.opened.items ≤ length s.asked.items };
}

fn place_of(files: &[StoredFile], name: &str) -> Option<usize>
    ensures { result ≡ position (λ file. pointwise nat_eq (string_bytes file.name) name.now) files.now }
{
    files.iter().position(|file| file.name.as_str() == name)
}

/// What is left of an opened file.
fn rest_of(files: &[StoredFile], opened: OpenFile) -> &[u8]
    ensures room { opened.from + length result.now < 2 ^ 64 }
    ensures rest { result.now ≡ bytes_from (slice_get (map stored files.now) opened.place) opened.from }
{
    match files.get(opened.place) {
        Some(file) => match file.bytes.as_slice().get(opened.from..) {
            Some(rest) => rest,
            None => &[],
        },
        None => &[],
    }
}

ghost use Rattle.pip_base.specs.MemShelf.{stored, bytes_from};

impl MemShelf {
    ghost use Rattle.pip_base.specs.MemShelf.{no_files, has_file};
    ghost use Rattle.std.specs.Prelude.{false};

    /// A shelf with no files. It takes no memory.
    pub fn new(alloc: Global) -> MemShelf
        ensures { result ≡ no_files }
    {
        MemShelf {
            files: Vec::new(alloc),
            asked: Vec::new(alloc),
            opened: Vec::new(alloc),
            schedule: Schedule::new(alloc),
            fault_kind: FaultKind::Other,
        }
    }

    /// Whether there are bytes under a name.
    #[tactic(auto, using(crate::proofs::Shelves::places))]
    pub fn has(&self, name: &str) -> bool
        ensures { result ≡ has_file self.now.files name.now }
    {
        place_of(self.files.as_slice(), name).is_some()
    }

    /// Puts bytes under a name that isn't there yet. `Memory` is its one error, and changes nothing.
    pub fn add(&mut self, alloc: Global, name: &str, bytes: &[u8]) -> Result<(), PickError>
        requires { has_file self.old.files name.now ≡ false }
        ensures ok { OnOk result (self.new ≡ record self.old { files = self.old.files ++ (name.now, bytes.now) ∷ [] }) }
        ensures err { OnErr result (self.new ≡ self.old) }
        ensures memory { result ≢ Err PickError.Failed }
    {
        let Ok(name) = String::from_str(alloc, name) else {
            return Err(PickError::Memory);
        };
        let Ok(bytes) = Vec::from_slice(alloc, bytes) else {
            return Err(PickError::Memory);
        };
        match self.files.push(StoredFile { name, bytes }) {
            Ok(()) => Ok(()),
            Err(_) => Err(PickError::Memory),
        }
    }

    /// Adds a call to those that fail; calls count from 1 over all picks and reads. `Memory` is its one
    /// error, and changes nothing.
    pub fn fail_at(&mut self, call: u64) -> Result<(), PickError>
        ensures ok { OnOk result (self.new ≡ record self.old { plan = record self.old.plan { failing = self.old.plan.failing ++ call ∷ [] } }) }
        ensures err { OnErr result (self.new ≡ self.old) }
        ensures memory { result ≢ Err PickError.Failed }
    {
        self.schedule.fail_at(call)
    }
}

impl Shelf for MemShelf {
    ghost use Rattle.pip_base.specs.MemShelf.{told_bytes, left_bytes};

    ghost told = { λ s name. told_bytes s name };

    ghost is_picked = { λ s n. n < length s.opened };

    ghost left = { λ s n. left_bytes s n };

    ghost asked = { λ s. s.asked };

    ghost faults = { λ s. s.plan.faults };

    #[tactic(auto, using(crate::proofs::Shelves::places))]
    fn pick(&mut self, alloc: Global, name: &str) -> Result<u32, PickError> {
        let Ok(word) = String::from_str(alloc, name) else {
            return Err(PickError::Memory);
        };
        if self.opened.try_reserve(1).is_err() {
            return Err(PickError::Memory);
        }
        if self.asked.push(word).is_err() {
            return Err(PickError::Memory);
        }
        if self.schedule.next() {
            self.schedule.fault();
            self.fault_kind = FaultKind::Other;
            return Err(PickError::Failed);
        }
        let Some(place) = place_of(self.files.as_slice(), name) else {
            self.schedule.fault();
            self.fault_kind = FaultKind::NotFound;
            return Err(PickError::Failed);
        };
        let number = self.opened.len() as u32;
        match self.opened.push(OpenFile { place, from: 0 }) {
            Ok(()) => Ok(number),
            Err(_) => unreachable!(),
        }
    }

    fn read(&mut self, file: u32, into: &mut [u8]) -> Result<usize, Failed> {
        if self.schedule.next() {
            self.schedule.fault();
            self.fault_kind = FaultKind::Other;
            return Err(Failed);
        }
        let open = self.opened[file as usize];
        let rest = rest_of(self.files.as_slice(), open);
        let count = rest.len().min(into.len());
        into[..count].copy_from_slice(&rest[..count]);
        self.opened[file as usize] = OpenFile {
            place: open.place,
            from: open.from + count,
        };
        Ok(count)
    }

    fn fault_kind(&self) -> FaultKind {
        self.fault_kind
    }
}
