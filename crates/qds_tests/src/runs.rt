//! What reads a whole text does so where there is memory.

use qd_check::{check, fmt};
use qd_items::RunEnd;
use qd_outside::{ListSink, SoundSource};
use qd_scheme::Scheme;
use qd_scheme_file::read_scheme;
use std::alloc::{AllocError, Global};
use std::process::Abort;
use std::test::Fail;

/// A source of these bytes.
fn source(alloc: Global, text: &[u8]) -> Result<SoundSource, AllocError> {
    Ok(SoundSource::new(Vec::from_slice(alloc, text)?))
}

#[test]
fn a_scheme_file_is_read(rt: HostRuntime) -> Result<(), Fail> {
    let mut source = source(rt.alloc(), b"=Bar\tP:d2\n")?;
    assert!(rt; read_scheme(rt.alloc(), &mut source).is_ok());
    Ok(())
}

#[test]
fn a_text_is_counted(rt: HostRuntime) -> Result<(), Fail> {
    let alloc = rt.alloc();
    let scheme = Scheme::builtin(alloc)?;
    let mut source = source(alloc, b"==PROTOCOL\t1\n==END\n")?;
    let mut out = ListSink::new(alloc, Vec::new(alloc));
    assert!(rt; check(alloc, &scheme, &mut source, &mut out) == RunEnd::Done);
    Ok(())
}

#[test]
fn a_text_is_printed(rt: HostRuntime) -> Result<(), Fail> {
    let alloc = rt.alloc();
    let scheme = Scheme::builtin(alloc)?;
    let mut source = source(alloc, b"==PROTOCOL\t1\n==END\n")?;
    let mut out = ListSink::new(alloc, Vec::new(alloc));
    assert!(rt; fmt(alloc, &scheme, &mut source, &mut out) == RunEnd::Done);
    Ok(())
}
