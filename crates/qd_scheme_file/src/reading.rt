ghost use Rattle.std.specs.Prelude.{◌≡◌, ◌≤◌, ◌<◌, ◌+◌, ◌-◌, ◌==◌, ◌++◌, ◌∷◌, ◌^◌, ◌⊎◌, if◌then◌else◌, true, List, ℕ, [], length, Some, None, Result, Ok, Err, IfOk, OnOk, vec_len};
ghost use Rattle.qd_line.specs.Cutter.{IsTooLong};
ghost use Rattle.qd_outside.specs.Causes.{Rose};
ghost use Rattle.qd_scheme.specs.declared.defs.RecordDef.{RecordDef};
ghost use Rattle.qd_scheme_file.specs.declared.no_scheme.NoScheme.{NoScheme};
ghost use Rattle.qd_scheme_file.specs.declared.no_scheme.NoScheme.TheVariants.{LineTooLong, TooMuch, NoMemory as Forgone};
ghost use Rattle.qd_scheme_file.specs.Ends.{Ends, Decides};
ghost use Rattle.qd_scheme_file.specs.Told.{read_on, with_said, judged, finished};
ghost use Rattle.qd_scheme_file.specs.Reading.{no_scheme, Answers, Gives, IsOpen, ReadsAll, ReadsPiece};
ghost use Rattle.qd_scheme.specs.Faults.{scheme_fault};
ghost use Rattle.qd_text.specs.SchemeLines.{is_record_line, scheme_line, no_lines};

use crate::no_scheme::NoScheme;
use qd_line::{LineCutter, Next};
use qd_outside::{Read, Source};
use qd_scheme::{NoMemory, Scheme};
use qd_text::{SchemeEnd, SchemeReader};
use std::alloc::Global;

/// The most bytes that are read of a file.
const MOST_BYTES: u64 = 1 << 40;

/// How many bytes one read asks for.
const PIECE: usize = 16_384;

/// Reads a scheme file to its end.
pub fn read_scheme<S: Source>(alloc: Global, source: &mut S) -> Result<Scheme, NoScheme>
    ensures kept { S.kept source.new ≡ S.kept source.old }
    ensures ends { Ends result (S.left source.old) (S.left source.new) (S.faults source.old) (S.faults source.new) }
    // Where no fault is counted, the file alone decides the end, but for want of memory.
    ensures decided { (bytes : List ℕ) (end : Result (List RecordDef) NoScheme) → S.left source.old ≡ Some bytes → Decides bytes end → (Rose (S.faults source.old) (S.faults source.new) → ⊥) → (result ≡ end) ⊎ (result ≡ Err Forgone) }
{
    let mut cutter = LineCutter::new(alloc).map_err(|_| NoScheme::NoMemory)?;
    let mut reader = SchemeReader::new(alloc).map_err(|_| NoScheme::NoMemory)?;
    match read_all(alloc, source, &mut cutter, &mut reader) {
        Ok(()) => finish(cutter, reader),
        Err(end) => Err(end),
    }
}

/// Reads what follows the last line feed, and judges the records.
fn finish(mut cutter: LineCutter, mut reader: SchemeReader) -> Result<Scheme, NoScheme>
    requires same { cutter.line ≡ reader.lines }
    requires few { reader.lines + length cutter.left < 2 ^ 40 }
    ensures { Answers result (finished reader (cutter.left ++ 10 ∷ [])) }
{
    match read_last_line(&mut cutter, &mut reader) {
        Ok(()) => judged(reader),
        Err(end) => Err(end),
    }
}

/// The scheme of the records that were read.
fn judged(reader: SchemeReader) -> Result<Scheme, NoScheme>
    ensures answer { Answers result (judged reader (scheme_fault reader.defs)) }
    ensures memory { result ≡ Err Forgone → scheme_fault reader.defs ≡ None }
{
    match reader.finish() {
        Ok(scheme) => Ok(scheme),
        Err(end) => Err(no_scheme(end)),
    }
}

fn no_scheme(end: SchemeEnd) -> NoScheme
    ensures { result ≡ no_scheme end }
{
    match end {
        SchemeEnd::Bad(bad) => NoScheme::Bad(bad),
        SchemeEnd::Wrong { line, why } => NoScheme::Wrong { line, why },
        SchemeEnd::NoMemory => NoScheme::NoMemory,
    }
}

/// Reads the file to its end, and all its whole lines.
fn read_all<S: Source>(
    alloc: Global,
    source: &mut S,
    cutter: &mut LineCutter,
    reader: &mut SchemeReader,
) -> Result<(), NoScheme>
    requires nothing_cut { cutter.old ≡ record { text = []; left = []; line = 0 } }
    requires nothing_read { reader.old ≡ no_lines }
    ensures kept { S.kept source.new ≡ S.kept source.old }
    ensures reads { ReadsAll result reader.new cutter.new (S.left source.old) (S.left source.new) (S.faults source.old) (S.faults source.new) }
{
    let mut piece = match new_piece(alloc) {
        Ok(piece) => piece,
        Err(_) => return Err(NoScheme::NoMemory),
    };
    let mut taken = 0;
    'pieces: loop {
        if let Err(end) = read_lines(cutter, reader) {
            return Err(end);
        }
        let most = match left_to_read(taken) {
            Ok(most) => most,
            Err(end) => return Err(end),
        };
        match read_piece(source, cutter, &mut piece, most) {
            Ok(0) => return Ok(()),
            Ok(n) => taken += n as u64,
            Err(end) => return Err(end),
        }
    }
}

/// Where the bytes of one read stand.
fn new_piece(alloc: Global) -> Result<Vec<u8>, NoMemory>
    ensures { IfOk result (λ piece. 0 < vec_len piece) }
{
    vec![in alloc; 0; PIECE]
}

/// How many bytes may still be read.
fn left_to_read(taken: u64) -> Result<usize, NoScheme>
    requires { taken ≤ 2 ^ 40 }
    ensures { result ≡ (if taken == 2 ^ 40 then Err TooMuch else Ok (2 ^ 40 - taken)) }
{
    if taken == MOST_BYTES {
        return Err(NoScheme::TooMuch);
    }
    Ok((MOST_BYTES - taken) as usize)
}

/// Reads at most so many bytes, once: how many it was, and none at the end.
fn read_piece<S: Source>(
    source: &mut S,
    cutter: &mut LineCutter,
    piece: &mut [u8],
    most: usize,
) -> Result<usize, NoScheme>
    requires some { 0 < most }
    requires room { 0 < length piece.old }
    ensures kept { S.kept source.new ≡ S.kept source.old }
    ensures reads { ReadsPiece result cutter.old cutter.new most (S.left source.old) (S.left source.new) (S.faults source.old) (S.faults source.new) }
{
    let room = most.min(piece.len());
    match source.read(&mut piece[..room]) {
        Read::Got(n) => match cutter.feed(&piece[..n]) {
            Ok(()) => Ok(n),
            Err(_) => Err(NoScheme::NoMemory),
        },
        Read::End => Ok(0),
        Read::Failed => Err(NoScheme::ReadFault),
    }
}

/// Reads what follows the last line feed, as if a line feed followed it.
fn read_last_line(cutter: &mut LineCutter, reader: &mut SchemeReader) -> Result<(), NoScheme>
    requires same { cutter.old.line ≡ reader.old.lines }
    requires few { reader.old.lines + length cutter.old.left < 2 ^ 40 }
    ensures { Gives (reader.new, cutter.new.left) result (read_on reader.old [] (cutter.old.left ++ 10 ∷ [])) }
{
    if cutter.feed(b"\n").is_err() {
        return Err(NoScheme::NoMemory);
    }
    read_lines(cutter, reader)
}

/// Reads all whole lines that the cutter has.
fn read_lines(cutter: &mut LineCutter, reader: &mut SchemeReader) -> Result<(), NoScheme>
    requires same { cutter.old.line ≡ reader.old.lines }
    requires few { reader.old.lines + length cutter.old.left < 2 ^ 63 }
    ensures read { Gives (reader.new, cutter.new.left) result (read_on reader.old [] cutter.old.left) }
    ensures long { IsTooLong cutter.old.left → result ≡ Err (LineTooLong (reader.old.lines + 1)) }
    ensures opened { OnOk result (IsOpen reader.new cutter.new.left) }
    ensures same { OnOk result (cutter.new.line ≡ reader.new.lines) }
    ensures few { OnOk result (reader.new.lines + length cutter.new.left ≤ reader.old.lines + length cutter.old.left) }
{
    'lines: loop {
        match cutter.next_line() {
            Next::Line => {
                if let Err(end) = read_line(cutter, reader) {
                    return Err(end);
                }
            }
            Next::None => return Ok(()),
            Next::TooLong { line } => return Err(NoScheme::LineTooLong { line }),
        }
    }
}

/// Reads the line that the cutter gave last.
fn read_line(cutter: &LineCutter, reader: &mut SchemeReader) -> Result<(), NoScheme>
    requires short { length cutter.now.text ≤ 4096 }
    requires few { reader.old.lines < 2 ^ 63 }
    ensures read { Gives reader.new result (with_said reader.old (scheme_line cutter.now.text)) }
    ensures memory { result ≡ Err Forgone → is_record_line cutter.now.text ≡ true }
{
    reader.line(cutter.text()).map_err(no_scheme)
}
