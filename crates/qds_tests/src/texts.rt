//! Lines and items are read where there is memory, and faults have their texts.

use qd_decimal::DecFault;
use qd_grammar::Why;
use qd_items::{Items, NextItem};
use qd_line::LineCutter;
use qd_outside::SoundSource;
use qd_scheme::Scheme;
use qd_text::{BadLine, Mode, SchemeReader};
use std::process::Abort;
use std::test::Fail;

#[test]
fn a_fault_of_a_number_is_printed(rt: HostRuntime) -> Result<(), Fail> {
    let text = format!(in rt.alloc(); "{}, {}", DecFault::Empty, DecFault::TooFine(7))?;
    assert!(rt; text.as_str() == "no digits, too fine at place 7");
    Ok(())
}

#[test]
fn a_reason_is_printed(rt: HostRuntime) -> Result<(), Fail> {
    let text = format!(in rt.alloc(); "{}, {}", Why::BadSymbol, Why::Number(DecFault::TooLarge))?;
    assert!(rt; text.as_str() == "this is no symbol, too large");
    Ok(())
}

#[test]
fn a_bad_line_is_printed(rt: HostRuntime) -> Result<(), Fail> {
    let bad = BadLine {
        line: 5,
        place: 11,
        why: Why::BadFlags,
    };
    let text = format!(in rt.alloc(); "{bad}")?;
    assert!(rt; text.as_str() == "line 5, place 11: flags with 0x20 or 0x80");
    Ok(())
}

#[test]
fn a_line_is_cut(rt: HostRuntime) -> Result<(), Fail> {
    let mut cutter = LineCutter::new(rt.alloc())?;
    cutter.feed(b"one\ntwo")?;
    assert!(rt; cutter.line() == 0);
    Ok(())
}

#[test]
fn a_description_is_read(rt: HostRuntime) -> Result<(), Fail> {
    let mut reader = SchemeReader::new(rt.alloc())?;
    assert!(rt; reader.line(b"=Bar\tP:d2").is_ok());
    assert!(rt; reader.finish().is_ok());
    Ok(())
}

#[test]
fn an_item_is_read(rt: HostRuntime) -> Result<(), Fail> {
    let alloc = rt.alloc();
    let scheme = Scheme::builtin(alloc)?;
    let mut source = SoundSource::new(Vec::from_slice(alloc, b"==PROTOCOL\t1\n")?);
    let mut items = Items::new(alloc, Mode::File)?;
    assert!(rt; matches!(items.next(&scheme, &mut source), NextItem::Item(_)));
    Ok(())
}
