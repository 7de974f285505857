//! Reads files by their names, writes bytes to a sink, and prints notes for a person.
//!
//! [`read_whole`] reads a file of at most 67,108,864 bytes to its end, and [`write_whole`] writes a
//! piece whole. The program has [`DirShelf`], [`OutSink`] and [`ErrNotes`] for them: the system's
//! files, the standard output and the standard error. Tests have a shelf, a sink and notes in memory. A
//! sink in memory with parts of 4 bytes and room for 10 takes a piece of 12 bytes so:
//!
//!     write "ip t p 10.0."    takes "ip t"    fault count 0
//!     write " p 10.0."        takes " p 1"    fault count 0
//!     write "0.0."            takes "0."      fault count 0
//!     write "0."              fails           fault count 1
//!
//! So [`write_whole`] returns a fault, and a front of the piece was taken. Each fault has its cause:
//! the count of faults rose. Contracts speak of bytes as far as they are known. A shelf or sink in
//! memory knows its bytes. For the real ones, contracts say nothing of the bytes; README.md, "What is
//! trusted", says what we trust of them.
//!
//! **Definitions:** `specs/Causes.antt`, `Picks.antt`, `Whole.antt` and `Notes.antt`; for files and
//! sinks in memory `MemShelf.antt`, `MemSink.antt` and `Schedule.antt`. **Proofs:** docs/proofs.md,
//! "Causes and counts (`pip_base`, `input_files`, `pipapo_cli`)".
#![tactic(auto)]

mod dir_shelf;
mod err_notes;
mod mem_notes;
mod mem_shelf;
mod mem_sink;
mod notes;
mod out_sink;
mod schedule;
mod shelf;
mod sink;
mod whole;

pub use dir_shelf::DirShelf;
pub use err_notes::ErrNotes;
pub use mem_notes::MemNotes;
pub use mem_shelf::MemShelf;
pub use mem_sink::MemSink;
pub use notes::Notes;
pub use out_sink::OutSink;
pub use shelf::{Failed, FaultKind, PickError, Shelf};
pub use sink::Sink;
pub use whole::{FILE_LIMIT, ReadError, WriteFault, read_whole, write_whole};
