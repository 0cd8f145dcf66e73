//! Descriptions of records.

ghost use Rattle.std.specs.Prelude.{◌≡◌, ◌≤◌, ◌<◌, ◌+◌, length, map, nat_eq, IsTrue, All, slice_get};
ghost use Rattle.std.specs.Cmp.Lexicographic.{pointwise};
ghost use Rattle.qd_scheme.specs.Faults.{has_scale};
ghost use Rattle.qd_grammar.specs.Control.{kind_text, field_text, same_parts, description_at, describe_line};
ghost use Rattle.qd_text.specs.Cursor.{left, first_of};

use crate::body::def_of;
use crate::cursor::{fault_at, tab_from};
use qd_grammar::{Fault, Item, Why};
use qd_scheme::{FieldDef, FieldKind, Scheme};

#[tactic(auto, using(crate::proofs::Descriptions::scale_text))]
fn is_kind(text: &[u8], kind: FieldKind) -> bool
    requires { IsTrue (has_scale kind) }
    ensures { result ≡ pointwise nat_eq text.now (kind_text kind) }
{
    match kind {
        FieldKind::Int => text == b"i".as_slice(),
        FieldKind::Dec(scale) => text.len() == 2 && text[0] == b'd' && text[1] == b'0' + scale,
    }
}

#[tactic(auto, using(crate::proofs::Descriptions::too_short, crate::proofs::Descriptions::other_name, crate::proofs::Descriptions::other_byte, crate::proofs::Descriptions::same_front))]
fn is_field(text: &[u8], field: &FieldDef) -> bool
    requires { IsTrue (has_scale field.now.kind) }
    ensures { result ≡ pointwise nat_eq text.now (field_text field.now) }
{
    let name = field.name.bytes();
    let colon = name.len();
    if colon >= text.len() {
        return false;
    }
    if &text[..colon] != name {
        return false;
    }
    if text[colon] != b':' {
        return false;
    }
    is_kind(&text[colon + 1..], field.kind)
}

/// That the parts that are left describe these fields.
#[tactic(auto, using(crate::proofs::Descriptions::texts_left, crate::proofs::Descriptions::behind_last, crate::proofs::Descriptions::at_end, crate::proofs::Cells::scaled_field, crate::proofs::Cuts::parts_from, crate::proofs::Cuts::no_part_left))]
fn same_fields(line: &[u8], at: usize, fields: &[FieldDef]) -> Result<(), Fault>
    requires scaled { All (λ field. IsTrue (has_scale field.kind)) fields.now }
    requires short { length line.now ≤ 4096 }
    requires within { at ≤ length line.now + 1 }
    ensures { result ≡ same_parts (map field_text fields.now) (length line.now + 1) (left line.now at) }
{
    let mut next = at;
    for field in fields {
        if next > line.len() {
            return Err(fault_at(line.len(), Why::SchemeMismatch));
        }
        let to = tab_from(line, next);
        if !is_field(&line[next..to], field) {
            return Err(fault_at(next, Why::SchemeMismatch));
        }
        next = to + 1;
    }
    if next <= line.len() {
        return Err(fault_at(next, Why::SchemeMismatch));
    }
    Ok(())
}

/// That the parts that are left describe a record.
#[tactic(auto, using(crate::proofs::Descriptions::described, crate::proofs::Cuts::parts_from, crate::proofs::Cuts::no_part_left))]
fn same_description(line: &[u8], at: usize, scheme: &Scheme, rec: u32) -> Result<(), Fault>
    requires short { length line.now ≤ 4096 }
    requires within { at ≤ length line.now + 1 }
    requires known { rec < length scheme.now }
    ensures { result ≡ same_parts (description_at (slice_get scheme.now rec)) (length line.now + 1) (left line.now at) }
{
    let def = def_of(scheme, rec);
    if !def.hist {
        return same_fields(line, at, def.fields.as_slice());
    }
    if at > line.len() {
        return Err(fault_at(line.len(), Why::SchemeMismatch));
    }
    let to = tab_from(line, at);
    if &line[at..to] != b"*".as_slice() {
        return Err(fault_at(at, Why::SchemeMismatch));
    }
    same_fields(line, to + 1, def.fields.as_slice())
}

/// A description, whose first part ends at `end`.
#[tactic(auto, using(crate::proofs::Descriptions::name_bytes), unfolding(qd_grammar::specs::Control::describe_line))]
pub fn describe_line(line: &[u8], end: usize, scheme: &Scheme) -> Result<Item, Fault>
    requires short { length line.now ≤ 4096 }
    requires some { 0 < end }
    requires within { end ≤ length line.now }
    ensures { result ≡ describe_line scheme.now (length line.now + 1) (first_of line.now end) (left line.now (end + 1)) }
{
    match scheme.find(&line[1..end]) {
        None => Err(fault_at(1, Why::UnknownRecord)),
        Some(rec) => {
            same_description(line, end + 1, scheme, rec)?;
            Ok(Item::Describe(rec))
        }
    }
}
