use set_model::Memory;
use std::alloc::{AllocError, AllocFailed};
use std::io;

/// Why nothing was measured.
#[derive(Clone, Copy)]
pub(crate) enum Fault {
    Usage,
    /// The workload can't be parsed, or it has no fields, elements or keys.
    Workload,
    /// The file, the clock or the output failed.
    System,
    Memory,
}

impl Fault {
    /// The program's exit status.
    pub(crate) fn status(self) -> u8 {
        match self {
            Fault::Usage => 2,
            Fault::Workload | Fault::System | Fault::Memory => 1,
        }
    }

    pub(crate) fn text(self) -> &'static str {
        match self {
            Fault::Usage =>
                "usage: reader_speed readers N FILE | packets N FILE, with N from 1 to 16",
            Fault::Workload => "reader_speed: no fields, elements or keys can be read",
            Fault::System => "reader_speed: the file, the clock or the output failed",
            Fault::Memory => "reader_speed: want of memory",
        }
    }
}

impl From<AllocError> for Fault {
    fn from(_: AllocError) -> Fault {
        Fault::Memory
    }
}

impl<T: Drop> From<AllocFailed<T>> for Fault {
    fn from(_: AllocFailed<T>) -> Fault {
        Fault::Memory
    }
}

impl From<Memory> for Fault {
    fn from(_: Memory) -> Fault {
        Fault::Memory
    }
}

impl From<io::Error> for Fault {
    fn from(_: io::Error) -> Fault {
        Fault::System
    }
}
