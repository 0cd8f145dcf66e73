//! Sources, sinks and files in memory, where there is some.

use qd_outside::{
    Files, HeldFile, ListFiles, ListSink, OutBuffer, Sink, Write, Writing, write_all,
};
use std::alloc::{AllocError, Global};
use std::process::Abort;
use std::test::Fail;

#[test]
fn a_writer_of_std_takes_all(rt: HostRuntime) -> Result<(), Fail> {
    let mut bytes = Vec::new(rt.alloc());
    {
        let mut sink = Writing::new(&mut bytes);
        assert!(rt; write_all(&mut sink, b"text"));
    }
    assert!(rt; bytes.len() == 4);
    Ok(())
}

#[test]
fn bytes_are_held_back_where_there_is_memory(rt: HostRuntime) -> Result<(), Fail> {
    let alloc = rt.alloc();
    let mut sink = ListSink::new(alloc, Vec::new(alloc));
    let mut buffer = OutBuffer::new(alloc);
    assert!(rt; buffer.print(&mut sink, b"one"));
    assert!(rt; sink.written().is_empty());
    Ok(())
}

/// A file in memory.
fn held(alloc: Global) -> Result<HeldFile, AllocError> {
    Ok(HeldFile {
        name: Vec::from_slice(alloc, b"a")?,
        bytes: Vec::from_slice(alloc, b"text")?,
    })
}

#[test]
fn files_in_memory_are_opened_where_there_is_memory(rt: HostRuntime) -> Result<(), Fail> {
    let alloc = rt.alloc();
    let mut list = Vec::new(alloc);
    list.push(held(alloc)?)?;
    let mut files = ListFiles::new(alloc, list, Vec::new(alloc));
    assert!(rt; files.open_in("a") && files.open_out("b"));
    assert!(rt; matches!(files.write(b"new"), Write::Wrote(3)));
    Ok(())
}
