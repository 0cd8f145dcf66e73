//! The adapters over readers and writers that are broken off or fail, and over real files.

use qd_outside::{Files, Read, Reading, RealFiles, Sink, Source, Write, Writing};
use std::io::ErrorKind;
use std::process::Abort;
use std::test::Fail;
use std::{fs, io};

/// A reader and writer whose next call a signal breaks off, and which fails after it or does not.
#[derive(Drop)]
struct Device {
    signal: bool,
    fails: bool,
}

/// The error of a call, where it has one.
fn fault(device: &mut Device) -> io::Result<()> {
    if device.signal {
        device.signal = false;
        return Err(io::Error::from(ErrorKind::Interrupted));
    }
    if device.fails {
        return Err(io::Error::from(ErrorKind::BrokenPipe));
    }
    Ok(())
}

impl io::Read for Device {
    fn read(&mut self, buf: &mut [u8]) -> io::Result<usize> {
        fault(self)?;
        Ok(buf.len())
    }
}

impl io::Write for Device {
    fn write(&mut self, buf: &[u8]) -> io::Result<usize> {
        fault(self)?;
        Ok(buf.len())
    }

    fn flush(&mut self) -> io::Result<()> {
        fault(self)
    }
}

/// A device whose next call a signal breaks off.
fn broken_off(fails: bool) -> Device {
    Device {
        signal: true,
        fails,
    }
}

#[test]
fn a_read_that_a_signal_broke_off_is_made_again(rt: HostRuntime) -> Result<(), Fail> {
    let mut source = Reading::new(broken_off(false));
    assert!(rt; matches!(source.read(&mut [0; 3]), Read::Got(3)));
    Ok(())
}

#[test]
fn a_write_that_a_signal_broke_off_is_made_again(rt: HostRuntime) -> Result<(), Fail> {
    let mut sink = Writing::new(broken_off(false));
    assert!(rt; matches!(sink.write(b"abc"), Write::Wrote(3)));
    Ok(())
}

#[test]
fn a_flush_that_a_signal_broke_off_is_made_again(rt: HostRuntime) -> Result<(), Fail> {
    let mut sink = Writing::new(broken_off(false));
    assert!(rt; sink.flush());
    Ok(())
}

#[test]
fn a_read_that_fails_is_told_as_failed(rt: HostRuntime) -> Result<(), Fail> {
    let mut source = Reading::new(broken_off(true));
    assert!(rt; matches!(source.read(&mut [0; 3]), Read::Failed));
    Ok(())
}

#[test]
fn a_write_that_fails_is_told_as_failed(rt: HostRuntime) -> Result<(), Fail> {
    let mut sink = Writing::new(broken_off(true));
    assert!(rt; matches!(sink.write(b"abc"), Write::Failed));
    Ok(())
}

#[test]
fn a_flush_that_fails_is_told_as_failed(rt: HostRuntime) -> Result<(), Fail> {
    let mut sink = Writing::new(broken_off(true));
    assert!(rt; !sink.flush());
    Ok(())
}

/// Writes a file.
fn is_written<F: Files>(files: &mut F, name: &str) -> bool {
    files.open_out(name) && matches!(files.write(b"kept"), Write::Wrote(4)) && files.flush()
}

/// Reads a file of four bytes to its end.
fn is_read<F: Files>(files: &mut F, name: &str, buf: &mut [u8; 8]) -> bool {
    files.open_in(name)
        && matches!(files.read(buf), Read::Got(4))
        && matches!(files.read(&mut [0; 8]), Read::End)
}

#[test]
fn a_real_file_gives_what_was_written_each_time(rt: HostRuntime) -> Result<(), Fail> {
    let name = "a_real_file_of_a_test";
    let mut files = RealFiles::new(&rt);
    let mut buf = [0; 8];
    assert!(rt; is_written(&mut files, name));
    assert!(rt; is_read(&mut files, name, &mut buf));
    assert!(rt; is_read(&mut files, name, &mut buf) && buf.starts_with(b"kept"));
    fs::remove_file(&rt, name)?;
    Ok(())
}

#[test]
fn a_file_that_is_read_is_not_made(rt: HostRuntime) -> Result<(), Fail> {
    let name = "a_file_that_is_not_there";
    let mut files = RealFiles::new(&rt);
    assert!(rt; !files.open_in(name) && fs::metadata(&rt, name).is_err());
    Ok(())
}

#[test]
fn what_is_no_file_cannot_be_opened(rt: HostRuntime) -> Result<(), Fail> {
    let mut files = RealFiles::new(&rt);
    assert!(rt; !files.open_in("a\0b") && !files.open_in("no_such_directory/a"));
    assert!(rt; !files.open_out(".") && !files.open_out("no_such_directory/a"));
    assert!(rt; !files.open_out("") && !files.open_out("a\0b"));
    Ok(())
}

#[test]
fn a_full_disk_takes_no_byte(rt: HostRuntime) -> Result<(), Fail> {
    let mut files = RealFiles::new(&rt);
    let is_there = fs::metadata(&rt, "/dev/full").is_ok();
    let is_opened = is_there && files.open_out("/dev/full");
    let is_kept = is_opened && is_written(&mut files, "/dev/full");
    assert!(rt; is_opened == is_there && !is_kept);
    Ok(())
}
