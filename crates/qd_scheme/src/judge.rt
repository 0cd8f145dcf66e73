//! Whether a list of records is a scheme.
ghost use Rattle.std.specs.Prelude.{◌≡◌, Bool};
ghost use Rattle.std.specs.List.{list_any};
ghost use Rattle.qd_scheme.specs.Names.{name_eq};
ghost use Rattle.qd_scheme.specs.Faults.{has_scale, name_fault, field_fault, fields_fault, record_fault, scheme_fault};

use crate::defs::{FieldDef, FieldKind, RecordDef};
use crate::faults::{SchemeFault, SchemeWhy};
use crate::names::is_name;

/// What has a name among others.
trait Named {
    ghost use Rattle.std.specs.Prelude.{ℕ, List};

    ghost name_of: { Self → List ℕ };

    fn name(&self) -> &[u8]
        ensures { result.now ≡ name_of self.now };
}

impl Named for FieldDef {
    ghost name_of = { λ f. f.name };

    fn name(&self) -> &[u8] {
        self.name.bytes()
    }
}

impl Named for RecordDef {
    ghost name_of = { λ d. d.name };

    fn name(&self) -> &[u8] {
        self.name.bytes()
    }
}

/// The first record that is wrong, and the first rule that it breaks.
#[tactic(auto, unfolding(crate::specs::Faults::scheme_fault))]
pub(crate) fn scheme_fault(defs: &[RecordDef]) -> Option<SchemeFault>
    ensures { result ≡ scheme_fault defs.now }
{
    if defs.len() > 64 {
        return Some(SchemeFault::Wrong {
            rec: 64,
            why: SchemeWhy::TooManyRecords,
        });
    }
    for (i, def) in defs.iter().enumerate() {
        if let Some(why) = record_fault(&defs[..i], def) {
            return Some(SchemeFault::Wrong { rec: i as u32, why });
        }
    }
    None
}

fn record_fault(before: &[RecordDef], def: &RecordDef) -> Option<SchemeWhy>
    ensures { result ≡ record_fault before.now def.now }
{
    let fault = name_fault(before, def.name.bytes());
    if fault.is_some() {
        return fault;
    }
    let fields = def.fields.as_slice();
    if fields.len() > 16 {
        return Some(SchemeWhy::TooManyFields);
    }
    fields_fault(fields)
}

fn fields_fault(fields: &[FieldDef]) -> Option<SchemeWhy>
    ensures { result ≡ fields_fault fields.now }
{
    for (i, field) in fields.iter().enumerate() {
        let fault = field_fault(&fields[..i], field);
        if fault.is_some() {
            return fault;
        }
    }
    None
}

fn field_fault(before: &[FieldDef], field: &FieldDef) -> Option<SchemeWhy>
    ensures { result ≡ field_fault before.now field.now }
{
    let fault = name_fault(before, field.name.bytes());
    if fault.is_some() {
        return fault;
    }
    if !has_scale(field.kind) {
        return Some(SchemeWhy::BadScale);
    }
    None
}

fn name_fault<T: Named>(before: &[T], name: &[u8]) -> Option<SchemeWhy>
    ensures { result ≡ name_fault name.now (list_any (λ x. name_eq (T.name_of x) name.now) before.now) }
{
    if !is_name(name) {
        return Some(SchemeWhy::BadName);
    }
    if is_taken(before, name) {
        return Some(SchemeWhy::DuplicateName);
    }
    None
}

/// Whether one of these has the name.
fn is_taken<T: Named>(items: &[T], name: &[u8]) -> bool
    ensures { result ≡ list_any (λ x. name_eq (T.name_of x) name.now) items.now }
{
    for item in items {
        if item.name() == name {
            return true;
        }
    }
    false
}

fn has_scale(kind: FieldKind) -> bool
    ensures { result ≡ has_scale kind }
{
    match kind {
        FieldKind::Int => true,
        FieldKind::Dec(scale) => scale <= 9,
    }
}
