ghost use Rattle.std.specs.Prelude.{◌≡◌, ◌<◌, ◌≤◌, ◌+◌, List, [], ℕ, length, map, Option, Some, None};
ghost use Rattle.std.specs.String.{string_bytes};

use crate::shelf::{Failed, FaultKind, PickError, Shelf};
use std::alloc::Global;
use std::fs;
use std::io::{self, Read};
use std::marker::Model;
use std::rt::Files;

/// The name of the standard input.
const STANDARD_INPUT: &str = "-";

/// What opens for a name.
#[derive(Drop)]
enum Opened<F: Read + Drop> {
    File(F),
    StandardInput,
}

/// The files of the system, by their paths, and the standard input by the name `-`. Contracts say
/// nothing of their bytes. It is a fault if a file can't be opened or read, or if it is a directory.
#[derive(Drop)]
pub struct DirShelf<'a, R: Files, I: Read + Drop> {
    rt: &'a R,
    input: I,
    files: Vec<Opened<R::File>>,
    asked: Vec<String>,
    faults: u64,
    fault_kind: FaultKind,
    ghost each_asked: { length files.items ≤ length asked.items },
}

impl<'a, R: Files, I: Read + Drop> DirShelf<'a, R, I> {
    /// A shelf that has picked no file yet, with `input` as the standard input. It takes no memory.
    pub fn new(alloc: Global, rt: &'a R, input: I) -> DirShelf<'a, R, I>
        ensures asked { result.asked.items ≡ [] }
        ensures faults { result.faults ≡ 0 }
    {
        DirShelf {
            rt,
            input,
            files: Vec::new(alloc),
            asked: Vec::new(alloc),
            faults: 0,
            fault_kind: FaultKind::Other,
        }
    }
}

/// What the system has under a name.
fn open<R: Files>(rt: &R, name: &str) -> io::Result<Opened<R::File>> {
    if name == STANDARD_INPUT {
        return Ok(Opened::StandardInput);
    }
    Ok(Opened::File(fs::open(rt, name)?))
}

impl<R: Files, I: Read + Drop> Shelf for DirShelf<'_, R, I> {
    ghost told = { λ _ _. None };

    ghost is_picked = { λ s n. n < length s.files.items };

    ghost left = { λ _ _. None };

    ghost asked = { λ s. map string_bytes s.asked.items };

    ghost faults = { λ s. s.faults };

    fn pick(&mut self, alloc: Global, name: &str) -> Result<u32, PickError> {
        let Ok(word) = String::from_str(alloc, name) else {
            return Err(PickError::Memory);
        };
        if self.asked.try_reserve(1).is_err() || self.files.try_reserve(1).is_err() {
            return Err(PickError::Memory);
        }
        let opened = open(self.rt, name);
        if let Err(error) = &opened {
            if error.kind() == io::ErrorKind::OutOfMemory {
                return Err(PickError::Memory);
            }
        }
        if self.asked.push(word).is_err() {
            return Err(PickError::Memory);
        }
        match opened {
            Ok(file) => {
                let number = self.files.len() as u32;
                match self.files.push(file) {
                    Ok(()) => Ok(number),
                    Err(_) => Err(PickError::Memory),
                }
            }
            Err(error) => {
                self.faults = self.faults.saturating_add(1);
                self.fault_kind = FaultKind::of(&error);
                Err(PickError::Failed)
            }
        }
    }

    fn read(&mut self, file: u32, into: &mut [u8]) -> Result<usize, Failed> {
        let read = match &mut self.files[file as usize] {
            Opened::File(file) => file.read(into),
            Opened::StandardInput => self.input.read(into),
        };
        match read {
            Ok(count) => Ok(count),
            Err(error) => {
                self.faults = self.faults.saturating_add(1);
                self.fault_kind = FaultKind::of(&error);
                Err(Failed)
            }
        }
    }

    fn fault_kind(&self) -> FaultKind {
        self.fault_kind
    }
}
