//! The trusted edge, over the system's own files: a shelf of real files, a sink, and notes. The standard
//! output and the standard error are files, so that a test reads what arrived.
ghost use Rattle.std.specs.Prelude.{ℕ, ◌+◌, ◌<◌, ◌≤◌, length};

use pip_base::{
    DirShelf, ErrNotes, Failed, FaultKind, Notes, OutSink, ReadError, Shelf, Sink, WriteFault,
    read_whole, write_whole,
};
use std::alloc::{AllocError, Global};
use std::fmt::Display;
use std::fs::{File, OpenOptions};
use std::io::{ErrorKind, Read, Write};
use std::test::Fail;
use std::{fs, io};

/// A standard output that goes to a file's end, at most so many bytes at once.
#[derive(Drop)]
struct ToFile<'a> {
    rt: &'a HostRuntime,
    path: &'a str,
    most: usize,
}

impl Print for ToFile<'_> {
    fn print<D: Display + Drop>(&self, _value: D) -> io::Result<()> {
        Err(io::Error::from(ErrorKind::Unsupported))
    }

    fn println<D: Display + Drop>(&self, _value: D) -> io::Result<()> {
        Err(io::Error::from(ErrorKind::Unsupported))
    }

    fn write_all(&self, _bytes: &[u8]) -> io::Result<()> {
        Err(io::Error::from(ErrorKind::Unsupported))
    }

    fn write_some(&self, bytes: &[u8]) -> io::Result<usize> {
        let mut file = OpenOptions::new().append(true).open(self.rt, self.path)?;
        file.write(&bytes[..bytes.len().min(self.most)])
    }
}

/// Whether a file has these bytes.
fn has_bytes<S: Shelf>(alloc: Global, shelf: &mut S, name: &str, wanted: &[u8]) -> bool
    requires { length (S.asked shelf.old) < 100 }
    ensures { length (S.asked shelf.new) ≤ length (S.asked shelf.old) + 1 }
{
    match read_whole(alloc, shelf, name) {
        Ok(bytes) => bytes.as_slice() == wanted,
        Err(_) => false,
    }
}

/// Whether a file can't be read, for this reason.
fn has_fault<S: Shelf>(alloc: Global, shelf: &mut S, name: &str, kind: FaultKind) -> bool
    requires { length (S.asked shelf.old) < 100 }
{
    match read_whole(alloc, shelf, name) {
        Ok(_) => false,
        Err(e) => e == ReadError::Fault && shelf.fault_kind() == kind,
    }
}

/// Whether the system's file has these bytes. It is removed.
fn is_file(rt: &HostRuntime, name: &str, wanted: &[u8]) -> bool {
    let mut shelf = DirShelf::new(rt.alloc(), rt, rt.stdin());
    has_bytes(rt.alloc(), &mut shelf, name, wanted) && fs::remove_file(rt, name).is_ok()
}

/// Whether the system's file can't be read, for this reason.
fn is_fault(rt: &HostRuntime, name: &str, kind: FaultKind) -> bool {
    let mut shelf = DirShelf::new(rt.alloc(), rt, rt.stdin());
    has_fault(rt.alloc(), &mut shelf, name, kind)
}

/// Whether a file is made.
fn is_made(rt: &HostRuntime, name: &str, text: &str) -> bool {
    fs::write(rt, name, text).is_ok()
}

/// 5,000 lines, more than one piece of a file.
fn long_text(alloc: Global) -> Result<String, AllocError> {
    let mut text = String::new(alloc);
    for line in 0..5_000 {
        text.push_str(format!(in alloc; "ip filter ports {line}\n")?.as_str())?;
    }
    Ok(text)
}

/// A file of several pieces comes whole, and each of its bytes once.
#[test]
fn real_files_are_read(rt: HostRuntime) -> Result<(), Fail> {
    assert!(rt; is_made(&rt, "pip_base_test.txt", "flush ruleset\n"));
    assert!(rt; is_file(&rt, "pip_base_test.txt", b"flush ruleset\n"));
    let text = long_text(rt.alloc())?;
    assert!(rt; is_made(&rt, "pip_base_long.txt", text.as_str()));
    assert!(rt; is_file(&rt, "pip_base_long.txt", text.as_bytes()));
    Ok(())
}

/// A folder in a file's place, a name that no file has, and a file that has vanished are faults and no empty files.
#[test]
fn a_folder_and_a_missing_file_are_faults(rt: HostRuntime) {
    assert!(rt; is_made(&rt, "pip_base_gone.txt", "accept"));
    assert!(rt; fs::remove_file(&rt, "pip_base_gone.txt").is_ok());
    assert!(rt; is_fault(&rt, "pip_base_gone.txt", FaultKind::NotFound));
    assert!(rt; is_fault(&rt, "pip_base_missing.txt", FaultKind::NotFound));
    assert!(rt; is_fault(&rt, ".", FaultKind::IsDirectory));
}

/// Whether the next piece of a file, of four bytes at most, is this one.
fn has_piece<S: Shelf>(shelf: &mut S, file: u32, wanted: &[u8]) -> bool
    requires { S.is_picked shelf.old file }
    ensures { (n : ℕ) → S.is_picked shelf.old n → S.is_picked shelf.new n }
{
    let mut piece = [0u8; 4];
    match shelf.read(file, &mut piece) {
        Ok(count) => piece.as_slice().get(..count) == Some(wanted),
        Err(_) => false,
    }
}

/// Whether alternating reads return `accept` and `drop`, each from its own file.
fn are_in_turn<S: Shelf>(shelf: &mut S, first: u32, second: u32) -> bool
    requires first { S.is_picked shelf.old first }
    requires second { S.is_picked shelf.old second }
{
    has_piece(shelf, first, b"acce")
        && has_piece(shelf, second, b"drop")
        && has_piece(shelf, first, b"pt")
        && has_piece(shelf, first, b"")
        && has_piece(shelf, second, b"")
}

/// Opens two files, and reads them alternately.
fn are_read_in_turn<S: Shelf>(alloc: Global, shelf: &mut S) -> bool
    requires { length (S.asked shelf.old) < 100 }
{
    let Ok(first) = shelf.pick(alloc, "pip_base_first.txt") else {
        return false;
    };
    let Ok(second) = shelf.pick(alloc, "pip_base_second.txt") else {
        return false;
    };
    are_in_turn(shelf, first, second)
}

/// Alternating reads of two files: each read goes on in its own file.
#[test]
fn two_real_files_are_read_in_turn(rt: HostRuntime) {
    assert!(rt; is_made(&rt, "pip_base_first.txt", "accept"));
    assert!(rt; is_made(&rt, "pip_base_second.txt", "drop"));
    let mut shelf = DirShelf::new(rt.alloc(), &rt, rt.stdin());
    assert!(rt; are_read_in_turn(rt.alloc(), &mut shelf));
    assert!(rt; fs::remove_file(&rt, "pip_base_first.txt").is_ok());
    assert!(rt; fs::remove_file(&rt, "pip_base_second.txt").is_ok());
}

/// Whether `-` is the standard input, and with a folder before it a file.
fn is_input<I: Read + Drop>(rt: &HostRuntime, input: I) -> bool {
    let mut shelf = DirShelf::new(rt.alloc(), rt, input);
    has_bytes(rt.alloc(), &mut shelf, "./-", b"a file of that name")
        && has_bytes(rt.alloc(), &mut shelf, "-", b"flush ruleset\n")
}

/// The name `-` is the standard input, also if a file has that name.
#[test]
fn the_standard_input_is_read_by_its_name(rt: HostRuntime) -> Result<(), Fail> {
    assert!(rt; is_made(&rt, "pip_base_input.txt", "flush ruleset\n"));
    assert!(rt; is_made(&rt, "-", "a file of that name"));
    assert!(rt; is_input(&rt, File::open(&rt, "pip_base_input.txt")?));
    assert!(rt; fs::remove_file(&rt, "./-").is_ok());
    assert!(rt; fs::remove_file(&rt, "pip_base_input.txt").is_ok());
    Ok(())
}

/// A standard input that can't be read is a fault.
#[test]
fn a_standard_input_of_a_folder_is_a_fault(rt: HostRuntime) -> Result<(), Fail> {
    let mut shelf = DirShelf::new(rt.alloc(), &rt, File::open(&rt, ".")?);
    assert!(rt; has_fault(rt.alloc(), &mut shelf, "-", FaultKind::IsDirectory));
    Ok(())
}

#[test]
fn the_standard_output_takes_a_piece(rt: HostRuntime) {
    let mut sink = OutSink::new(&rt);
    assert!(rt; write_whole(&mut sink, b"written to the standard output\n") == Ok(()));
}

/// Whether pieces are written in parts of five bytes.
fn are_written(rt: &HostRuntime, path: &str) -> bool {
    let to_file = ToFile { rt, path, most: 5 };
    let mut sink = OutSink::new(&to_file);
    sink.write(b"commit generation 1 ") == Ok(5)
        && write_whole(&mut sink, b"t generation 1 ") == Ok(())
        && write_whole(&mut sink, b"purged 0\n") == Ok(())
}

/// What arrives is each piece once, in the order in which they were written, also if each write takes a part.
#[test]
fn the_bytes_arrive_once(rt: HostRuntime) {
    assert!(rt; is_made(&rt, "pip_base_out.txt", ""));
    assert!(rt; are_written(&rt, "pip_base_out.txt"));
    assert!(rt; is_file(&rt, "pip_base_out.txt", b"commit generation 1 purged 0\n"));
}

/// Whether an output that takes at most so many bytes at once is a fault.
fn is_write_fault(rt: &HostRuntime, path: &str, most: usize) -> bool {
    let to_file = ToFile { rt, path, most };
    let mut sink = OutSink::new(&to_file);
    sink.write(b"commit") == Err(Failed) && write_whole(&mut sink, b"commit") == Err(WriteFault)
}

/// A device with no room takes nothing, and a write that takes nothing of a piece is a fault, too.
#[test]
fn a_full_device_and_a_write_of_no_bytes_are_faults(rt: HostRuntime) {
    assert!(rt; is_write_fault(&rt, "/dev/full", 5));
    assert!(rt; is_made(&rt, "pip_base_none.txt", ""));
    assert!(rt; is_write_fault(&rt, "pip_base_none.txt", 0));
    assert!(rt; is_file(&rt, "pip_base_none.txt", b""));
}

/// Prints two texts on a standard error.
fn tell_two(error: File) {
    let mut notes = ErrNotes::new(error);
    notes.tell(b"x.nft:1:1: this word\n");
    notes.tell(b"stands nowhere\n");
}

/// Each text arrives once and in order. A standard error that takes nothing is no failure.
#[test]
fn notes_arrive_once(rt: HostRuntime) -> Result<(), Fail> {
    tell_two(File::create(&rt, "pip_base_notes.txt")?);
    assert!(rt;
        is_file(
            &rt,
            "pip_base_notes.txt",
            b"x.nft:1:1: this word\nstands nowhere\n"
        )
    );
    tell_two(OpenOptions::new().append(true).open(&rt, "/dev/full")?);
    Ok(())
}
