//! What a line of a scheme file says.

ghost use Rattle.std.specs.Prelude.{◌≡◌, ◌≤◌, ◌<◌, ◌+◌, ◌∷◌, length, drop, cond, Some, is_some};
ghost use Rattle.qd_text.specs.Cursor.{left, first_of};
ghost use Rattle.qd_text.specs.SchemeLines.{is_digit, name_and_kind, field_told, fields_of, is_starred, is_record_line, record_of, scheme_line, Gives, WantsIf};

use crate::cursor::{fault_at, first_end, tab_from};
use crate::reader::{is_control, is_description, is_skipped};
use qd_grammar::{Fault, Why};
use qd_scheme::{FieldDef, FieldKind, Fields, Name, RecordDef};
use std::alloc::Global;

/// Why a line gave no record: its fault, or want of memory.
#[derive(Clone, Copy, Debug, Drop)]
pub enum Stop {
    Bad(Fault),
    NoMemory,
}

/// Where a field's name ends, and its kind.
fn name_and_kind(text: &[u8]) -> Option<(usize, FieldKind)>
    ensures { result ≡ name_and_kind text.now }
{
    let n = text.len();
    if n >= 2 && text[n - 2] == b':' && text[n - 1] == b'i' {
        return Some((n - 2, FieldKind::Int));
    }
    if n >= 3 && text[n - 3] == b':' && text[n - 2] == b'd' && is_digit(text[n - 1]) {
        return Some((n - 3, FieldKind::Dec(text[n - 1] - b'0')));
    }
    None
}

fn is_digit(byte: u8) -> bool
    ensures { result ≡ is_digit byte }
{
    byte >= b'0' && byte <= b'9'
}

/// The field that the part at an index describes.
fn field_of(alloc: Global, text: &[u8], at: usize) -> Result<FieldDef, Stop>
    requires { at ≤ 4096 }
    ensures read { Gives (λ f. f) result (field_told (at + 1) text.now) }
    ensures memory { WantsIf (is_some (name_and_kind text.now)) result }
{
    match name_and_kind(text) {
        None => Err(Stop::Bad(fault_at(at, Why::Form))),
        Some((end, kind)) => named_field(alloc, &text[..end], kind),
    }
}

fn named_field(alloc: Global, name: &[u8], kind: FieldKind) -> Result<FieldDef, Stop>
    ensures { Gives (λ f. f) result (Ok (record { name = name.now; kind = kind })) }
{
    match Name::new(alloc, name) {
        Ok(name) => Ok(FieldDef { name, kind }),
        Err(_) => Err(Stop::NoMemory),
    }
}

/// A field for each part from an index on.
#[tactic(auto, using(crate::proofs::SchemeFields::fields_step, crate::proofs::SchemeFields::fields_fail, crate::proofs::SchemeFields::fields_done, crate::proofs::Cuts::parts_from, crate::proofs::Cuts::no_part_left))]
fn fields_from(alloc: Global, line: &[u8], at: usize) -> Result<Fields, Stop>
    requires short { length line.now ≤ 4096 }
    requires within { at ≤ length line.now + 1 }
    ensures { Gives (λ f. f) result (fields_of (left line.now at)) }
{
    let mut fields = Fields::new(alloc);
    let mut next = at;
    while next <= line.len() {
        let to = tab_from(line, next);
        let field = field_of(alloc, &line[next..to], next)?;
        if fields.push(field).is_err() {
            return Err(Stop::NoMemory);
        }
        next = to + 1;
    }
    Ok(fields)
}

/// Whether a `*` stands before the fields, and where they begin.
#[tactic(auto, using(crate::proofs::Cuts::parts_from, crate::proofs::Cuts::no_part_left))]
fn star_at(line: &[u8], at: usize) -> (bool, usize)
    requires { at ≤ length line.now + 1 }
    ensures star { result.0 ≡ is_starred (left line.now at) }
    ensures fields { left line.now result.1 ≡ cond result.0 (drop 1 (left line.now at)) (left line.now at) }
    ensures within { result.1 ≤ length line.now + 1 }
{
    if at > line.len() {
        return (false, at);
    }
    let to = tab_from(line, at);
    if &line[at..to] == b"*".as_slice() {
        (true, to + 1)
    } else {
        (false, at)
    }
}

/// The record that a line describes, whose first part ends at `end`.
#[tactic(auto, using(crate::proofs::SchemeFields::record_made, crate::proofs::SchemeFields::record_fails, crate::proofs::Descriptions::name_bytes))]
fn record_of(alloc: Global, line: &[u8], end: usize) -> Result<RecordDef, Stop>
    requires short { length line.now ≤ 4096 }
    requires some { 0 < end }
    requires within { end ≤ length line.now }
    ensures { Gives (λ def. Some def) result (record_of (first_of line.now end ∷ left line.now (end + 1))) }
{
    let (hist, at) = star_at(line, end + 1);
    let fields = fields_from(alloc, line, at)?;
    match Name::new(alloc, &line[1..end]) {
        Ok(name) => Ok(RecordDef { name, hist, fields }),
        Err(_) => Err(Stop::NoMemory),
    }
}

/// What a line says: nothing where it is skipped, or a record.
#[tactic(auto, using(crate::proofs::SchemeFields::record_read), unfolding(crate::specs::SchemeLines::scheme_line))]
pub fn scheme_line(alloc: Global, line: &[u8]) -> Result<Option<RecordDef>, Stop>
    requires { length line.now ≤ 4096 }
    ensures read { Gives (λ read. read) result (scheme_line line.now) }
    ensures memory { WantsIf (is_record_line line.now) result }
{
    if is_skipped(line) {
        return Ok(None);
    }
    if !is_description(line) || is_control(line) {
        return Err(Stop::Bad(fault_at(0, Why::Form)));
    }
    let def = record_of(alloc, line, first_end(line))?;
    Ok(Some(def))
}
