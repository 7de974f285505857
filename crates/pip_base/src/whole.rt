ghost use Rattle.std.specs.Prelude.{◌≡◌, ◌≢◌, ◌+◌, ◌<◌, ◌≤◌, List, [], ◌∷◌, ◌++◌, ℕ, length, Option, Some, Ok, Err, IfOk, OnOk, OnErr};
ghost use Rattle.std.specs.Io.KnownBytes.{Appends, IsAtEnd};
ghost use Rattle.pip_base.specs.Causes.{HasCause, Rose};
ghost use Rattle.pip_base.specs.Picks.{AsksOnce, KeepsLeft, ReadsToEnd};
ghost use Rattle.pip_base.specs.Whole.{AppendsFront, size_limit};

use crate::shelf::{PickError, Shelf};
use crate::sink::Sink;
use std::alloc::Global;

/// The most bytes that an input file may have.
pub const FILE_LIMIT: usize = 67_108_864;

/// How many bytes of a file are read at once, at most.
const PIECE: usize = 65_536;

/// Why a file wasn't read whole.
#[derive(Clone, Copy, Debug, PartialEq, Eq)]
pub enum ReadError {
    /// It can't be opened or read.
    Fault,
    /// It has more bytes than `FILE_LIMIT`.
    TooLarge,
    /// Out of memory.
    Memory,
}

/// A sink failed before it had taken a whole piece.
#[derive(Clone, Copy, Debug, PartialEq, Eq)]
pub struct WriteFault;

/// Writes a whole piece. If the sink fails, it has taken a front of the piece.
pub fn write_whole<K: Sink>(sink: &mut K, piece: &[u8]) -> Result<(), WriteFault>
    ensures bytes { OnOk result (Appends (K.taken sink.old) (K.taken sink.new) piece.now) }
    ensures front { OnErr result (AppendsFront (K.taken sink.old) (K.taken sink.new) piece.now) }
    ensures cause { HasCause (K.faults sink.old) (K.faults sink.new) result }
{
    let mut from = 0;
    'pieces: while from < piece.len() {
        match sink.write(&piece[from..]) {
            Ok(n) => from += n,
            Err(_) => return Err(WriteFault),
        }
    }
    Ok(())
}

/// All bytes of a file of at most `FILE_LIMIT` bytes, read to its end. Contracts say so if the shelf
/// knows what is left of the file, as a shelf in memory does.
pub fn read_whole<F: Shelf>(alloc: Global, shelf: &mut F, name: &str) -> Result<Vec<u8>, ReadError>
    requires { length (F.asked shelf.old) < 4294967295 }
    ensures bytes { IfOk result (λ all. (bytes : List ℕ) → F.told shelf.old name.now ≡ Some bytes → all.items ≡ bytes) }
    ensures limit { IfOk result (λ all. length all.items ≤ size_limit) }
    ensures to_end { OnOk result (ReadsToEnd (F.is_picked shelf.old) (F.is_picked shelf.new) (F.left shelf.new)) }
    ensures too_large { result ≡ Err ReadError.TooLarge → (bytes : List ℕ) → F.told shelf.old name.now ≡ Some bytes → size_limit < length bytes }

    // It asks for that name alone, once, and leaves all other files as they were.
    ensures asked_once { AsksOnce (F.asked shelf.old) (F.asked shelf.new) name.now }
    ensures asked { result ≢ Err ReadError.Memory → F.asked shelf.new ≡ F.asked shelf.old ++ name.now ∷ [] }
    ensures told { (name : List ℕ) → F.told shelf.new name ≡ F.told shelf.old name }
    ensures kept { KeepsLeft (F.is_picked shelf.old) (F.is_picked shelf.new) (F.left shelf.old) (F.left shelf.new) }

    // A fault has its cause, and nothing else raises the count.
    ensures later { F.faults shelf.old ≤ F.faults shelf.new }
    ensures fault { result ≡ Err ReadError.Fault → Rose (F.faults shelf.old) (F.faults shelf.new) }
    ensures no_fault { result ≢ Err ReadError.Fault → F.faults shelf.new ≡ F.faults shelf.old }
{
    let file = match shelf.pick(alloc, name) {
        Ok(file) => file,
        Err(PickError::Failed) => return Err(ReadError::Fault),
        Err(PickError::Memory) => return Err(ReadError::Memory),
    };
    read_picked(alloc, shelf, file)
}

fn read_picked<F: Shelf>(alloc: Global, shelf: &mut F, file: u32) -> Result<Vec<u8>, ReadError>
    requires { F.is_picked shelf.old file }
    ensures bytes { IfOk result (λ all. (bytes : List ℕ) → F.left shelf.old file ≡ Some bytes → all.items ≡ bytes) }
    ensures limit { IfOk result (λ all. length all.items ≤ size_limit) }
    ensures to_end { OnOk result (IsAtEnd (F.left shelf.new file)) }
    ensures too_large { result ≡ Err ReadError.TooLarge → (bytes : List ℕ) → F.left shelf.old file ≡ Some bytes → size_limit < length bytes }
    ensures asked { F.asked shelf.new ≡ F.asked shelf.old }
    ensures told { (name : List ℕ) → F.told shelf.new name ≡ F.told shelf.old name }
    ensures picked { (m : ℕ) → F.is_picked shelf.old m → F.is_picked shelf.new m }
    ensures others { (m : ℕ) → m ≢ file → F.left shelf.new m ≡ F.left shelf.old m }
    ensures later { F.faults shelf.old ≤ F.faults shelf.new }
    ensures fault { result ≡ Err ReadError.Fault → Rose (F.faults shelf.old) (F.faults shelf.new) }
    ensures no_fault { result ≢ Err ReadError.Fault → F.faults shelf.new ≡ F.faults shelf.old }
{
    match vec![in alloc; 0u8; PIECE] {
        Ok(mut piece) => read_through(alloc, shelf, file, piece.as_mut_slice()),
        Err(_) => Err(ReadError::Memory),
    }
}

/// Reads a file through a room for its next bytes.
fn read_through<F: Shelf>(
    alloc: Global,
    shelf: &mut F,
    file: u32,
    piece: &mut [u8],
) -> Result<Vec<u8>, ReadError>
    requires picked { F.is_picked shelf.old file }
    requires room { 0 < length piece.old }
    ensures bytes { IfOk result (λ all. (bytes : List ℕ) → F.left shelf.old file ≡ Some bytes → all.items ≡ bytes) }
    ensures limit { IfOk result (λ all. length all.items ≤ size_limit) }
    ensures to_end { OnOk result (IsAtEnd (F.left shelf.new file)) }
    ensures too_large { result ≡ Err ReadError.TooLarge → (bytes : List ℕ) → F.left shelf.old file ≡ Some bytes → size_limit < length bytes }
    ensures asked { F.asked shelf.new ≡ F.asked shelf.old }
    ensures told { (name : List ℕ) → F.told shelf.new name ≡ F.told shelf.old name }
    ensures picked { (m : ℕ) → F.is_picked shelf.old m → F.is_picked shelf.new m }
    ensures others { (m : ℕ) → m ≢ file → F.left shelf.new m ≡ F.left shelf.old m }
    ensures later { F.faults shelf.old ≤ F.faults shelf.new }
    ensures fault { result ≡ Err ReadError.Fault → Rose (F.faults shelf.old) (F.faults shelf.new) }
    ensures no_fault { result ≢ Err ReadError.Fault → F.faults shelf.new ≡ F.faults shelf.old }
{
    let mut all = Vec::new(alloc);
    'reads: while all.len() <= FILE_LIMIT {
        match shelf.read(file, piece) {
            Ok(0) => return Ok(all),
            Ok(n) => match all.extend_from_slice(&piece[..n]) {
                Ok(()) => {}
                Err(_) => return Err(ReadError::Memory),
            },
            Err(_) => return Err(ReadError::Fault),
        }
    }
    Err(ReadError::TooLarge)
}
