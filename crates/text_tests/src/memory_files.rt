//! Files, an output and notes in memory.
use pip_base::{
    FaultKind, MemNotes, MemShelf, MemSink, Notes, ReadError, Shelf, WriteFault, read_whole,
    write_whole,
};
use std::process::Abort;
use std::test::Fail;

/// Asserts that bytes were read, and which.
fn assert_add(rt: &impl Abort, read: &Result<Vec<u8>, ReadError>) {
    match read {
        Ok(bytes) => assert!(rt; bytes.as_slice() == b"add".as_slice()),
        Err(_) => assert!(rt; false, "no bytes"),
    }
}

/// Asserts that a file can't be read.
fn assert_fault(rt: &impl Abort, read: &Result<Vec<u8>, ReadError>) {
    assert!(rt; matches!(read, Err(ReadError::Fault)));
}

/// A missing name and a failing call are faults.
#[test]
fn files_are_read(rt: HostRuntime) -> Result<(), Fail> {
    let mut shelf = MemShelf::new(rt.alloc());
    shelf.add(rt.alloc(), "a.nft", b"add")?;
    assert_fault(&rt, &read_whole(rt.alloc(), &mut shelf, "b.nft"));
    assert!(rt; shelf.fault_kind() == FaultKind::NotFound);
    shelf.fail_at(3)?;
    assert_fault(&rt, &read_whole(rt.alloc(), &mut shelf, "a.nft"));
    assert!(rt; shelf.fault_kind() == FaultKind::Other);
    assert_add(&rt, &read_whole(rt.alloc(), &mut shelf, "a.nft"));
    Ok(())
}

#[test]
fn a_piece_is_written_in_parts(rt: HostRuntime) -> Result<(), Fail> {
    let mut sink = MemSink::new(rt.alloc(), 3, 10)?;
    assert!(rt;
        write_whole(&mut sink, b"commit") == Ok(()) && sink.bytes() == b"commit".as_slice()
    );
    assert!(rt; write_whole(&mut sink, b" generation") == Err(WriteFault));
    assert!(rt; sink.bytes() == b"commit gen".as_slice());
    Ok(())
}

#[test]
fn a_failing_write_takes_nothing(rt: HostRuntime) -> Result<(), Fail> {
    let mut sink = MemSink::new(rt.alloc(), 7, 100)?;
    sink.fail_at(2)?;
    assert!(rt; write_whole(&mut sink, b"packet 0 thread 0") == Err(WriteFault));
    assert!(rt; sink.bytes() == b"packet ".as_slice());
    Ok(())
}

#[test]
fn notes_keep_what_was_told(rt: HostRuntime) {
    let mut notes = MemNotes::new(rt.alloc());
    notes.tell(b"x.nft:1:1: ");
    notes.tell(b"left out\n");
    assert!(rt; notes.bytes() == Some(b"x.nft:1:1: left out\n".as_slice()));
}
