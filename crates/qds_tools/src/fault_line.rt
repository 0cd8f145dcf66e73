//! The line on standard error.

ghost use Rattle.std.specs.Prelude.{◌≡◌, ◌≤◌, ◌+◌, ◌++◌, [], length};
ghost use Rattle.std.specs.Fmt.{decimal};
ghost use Rattle.qds_tools.specs.FaultLines.{plain_line, numbered_line, placed_line, scheme_line, run_line, fault_line, why_name};
ghost use Rattle.qds_tools.specs.Telling.{Tells};

use crate::names::{limit_name, scheme_name, why_name};
use crate::program_end::ProgramEnd;
use itoa::Buffer;
use qd_decimal::Line;
use qd_items::RunEnd;
use qd_outside::{Sink, write_all};
use qd_scheme_file::NoScheme;
use qd_text::BadLine;

/// Writes the line on an end and flushes it; nothing is written where all was done. The line is made first and is written
/// at once, so that programs that write to one terminal do not mix theirs.
pub fn write_fault<E: Sink>(err: &mut E, end: ProgramEnd) -> bool
    ensures { Tells result (fault_line end) (E.written err.old) (E.written err.new) (E.flushed err.new) (E.faults err.old) (E.faults err.new) }
{
    let mut line = Line::new();
    put_fault(end, &mut line);
    tell(err, line.bytes())
}

/// Writes a text and flushes it.
fn tell<E: Sink>(err: &mut E, text: &[u8]) -> bool
    ensures { Tells result text.now (E.written err.old) (E.written err.new) (E.flushed err.new) (E.faults err.old) (E.faults err.new) }
{
    if !write_all(err, text) {
        return false;
    }
    err.flush()
}

fn put_fault(end: ProgramEnd, line: &mut Line)
    requires { line.old ≡ [] }
    ensures { line.new ≡ fault_line end }
{
    match end {
        ProgramEnd::Usage => put_plain("usage", line),
        ProgramEnd::Refused(why) => put_refused(why, line),
        ProgramEnd::Ran(end) => put_run_end(end, line),
        ProgramEnd::NetFault => put_plain("net fault", line),
    }
}

fn put_refused(why: NoScheme, line: &mut Line)
    requires { line.old ≡ [] }
    ensures { line.new ≡ scheme_line why }
{
    match why {
        NoScheme::Bad(bad) => put_bad("qds: scheme line ", bad, line),
        NoScheme::Wrong { line: at, why } => {
            put_numbered("qds: scheme line ", at, scheme_name(why), line);
        }
        NoScheme::LineTooLong { line: at } => {
            put_numbered("qds: scheme line ", at, "LineTooLong", line);
        }
        NoScheme::TooMuch => put_plain("scheme: TooMuch", line),
        NoScheme::ReadFault => put_plain("read fault", line),
        NoScheme::NoMemory => put_plain("no memory", line),
    }
}

fn put_run_end(end: RunEnd, line: &mut Line)
    requires { line.old ≡ [] }
    ensures { line.new ≡ run_line end }
{
    match end {
        RunEnd::Done => {}
        RunEnd::CutOff { line: at } => put_numbered("qds: after line ", at, "CutOff", line),
        RunEnd::Bad(bad) => put_bad("qds: line ", bad, line),
        RunEnd::LineTooLong { line: at } => put_numbered("qds: line ", at, "LineTooLong", line),
        RunEnd::BadStep { line: at } => put_numbered("qds: line ", at, "BadStep", line),
        RunEnd::Refused { line: at, limit } => {
            put_numbered("qds: line ", at, limit_name(limit), line);
        }
        RunEnd::TooMuch => put_plain("TooMuch", line),
        RunEnd::ReadFault => put_plain("read fault", line),
        RunEnd::WriteFault => put_plain("write fault", line),
        RunEnd::Spent => put_plain("spent", line),
        RunEnd::NoMemory => put_plain("no memory", line),
    }
}

fn put_plain(name: &str, line: &mut Line)
    requires empty { line.old ≡ [] }
    requires short { length name.now ≤ 64 }
    ensures { line.new ≡ plain_line name.now }
{
    put("qds: ", line);
    put(name, line);
    put("\n", line);
}

fn put_numbered(start: &str, at: u64, name: &str, line: &mut Line)
    requires empty { line.old ≡ [] }
    requires start { length start.now ≤ 64 }
    requires short { length name.now ≤ 64 }
    ensures { line.new ≡ numbered_line start.now at name.now }
{
    put(start, line);
    put_number(at, line);
    put(": ", line);
    put(name, line);
    put("\n", line);
}

fn put_bad(start: &str, bad: BadLine, line: &mut Line)
    requires empty { line.old ≡ [] }
    requires start { length start.now ≤ 64 }
    ensures { line.new ≡ placed_line start.now bad.line bad.place (why_name bad.why) }
{
    put(start, line);
    put_number(bad.line, line);
    put(", place ", line);
    put_number(u64::from(bad.place), line);
    put(": ", line);
    put(why_name(bad.why), line);
    put("\n", line);
}

/// Appends a piece, for which there is room.
fn put(piece: &str, line: &mut Line)
    requires { length line.old + length piece.now ≤ 4096 }
    ensures piece { line.new ≡ line.old ++ piece.now }
    ensures len { length line.new ≡ length line.old + length piece.now }
{
    let _ = line.append(piece.as_bytes());
}

/// Appends a number.
fn put_number(n: u64, line: &mut Line)
    requires { length line.old + 40 ≤ 4096 }
    ensures number { line.new ≡ line.old ++ decimal n }
    ensures len { length line.new ≤ length line.old + 40 }
{
    let mut digits = Buffer::new();
    put(digits.format(n), line);
}
