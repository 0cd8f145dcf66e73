//! The canonical description of a record.

ghost use Rattle.std.specs.Prelude.{◌≡◌, ◌≤◌, ◌+◌, ◌++◌, ◌∷◌, [], length, map, All, slice_get};
ghost use Rattle.qd_grammar.specs.declared.item.Item.TheVariants.{Describe};
ghost use Rattle.qd_grammar.specs.Control.{kind_text, field_text, description, description_at};
ghost use Rattle.qd_grammar.specs.Canonical.{behind, joined, name_at, texts_of};

use crate::put::{put, put_digits, put_name, put_part, put_tab};
use qd_decimal::Line;
use qd_scheme::{FieldDef, FieldKind, RecordDef, Scheme};

#[tactic(auto, using(crate::proofs::Joins::byte_then))]
fn put_kind(kind: FieldKind, out: &mut Line)
    requires { length out.old ≤ 4070 }
    ensures kind { out.new ≡ out.old ++ kind_text kind }
    ensures short { length out.new ≤ length out.old + 21 }
{
    match kind {
        FieldKind::Int => put(b"i", out),
        FieldKind::Dec(scale) => {
            put(b"d", out);
            put_digits(u64::from(scale), out);
        }
    }
}

/// Appends a TAB and a field's name and kind.
#[tactic(auto, using(crate::proofs::Joins::field_parts))]
fn put_field(field: &FieldDef, out: &mut Line)
    requires named { length field.now.name ≤ 32 }
    requires room { length out.old ≤ 4000 }
    ensures part { out.new ≡ out.old ++ 9 ∷ field_text field.now }
    ensures short { length out.new ≤ length out.old + 55 }
{
    put_tab(out);
    put(field.name.bytes(), out);
    put(b":", out);
    put_kind(field.kind, out);
}

/// Appends the names and kinds of a record's fields, a TAB before each.
#[tactic(auto, using(crate::proofs::Joins::fields_left, crate::proofs::Joins::no_more_fields, crate::proofs::Joins::named_field))]
fn put_fields(fields: &[FieldDef], out: &mut Line)
    requires few { length fields.now ≤ 16 }
    requires named { All (λ field. length field.name ≤ 32) fields.now }
    requires room { length out.old ≤ 3132 }
    ensures parts { out.new ≡ out.old ++ behind (map field_text fields.now) }
    ensures short { length out.new ≤ length out.old + 880 }
{
    for field in fields {
        put_field(field, out);
    }
}

/// Appends the parts of a description behind its name.
#[tactic(auto, using(crate::proofs::Joins::starred))]
fn put_parts(def: &RecordDef, out: &mut Line)
    requires few { length def.now.fields ≤ 16 }
    requires named { All (λ field. length field.name ≤ 32) def.now.fields }
    requires room { length out.old ≤ 3129 }
    ensures parts { out.new ≡ out.old ++ behind (description def.now) }
    ensures short { length out.new ≤ length out.old + 882 }
{
    if def.hist {
        put_part(b"*", out);
    }
    put_fields(def.fields.as_slice(), out);
}

#[tactic(auto, using(crate::proofs::Cells::few_fields, crate::proofs::Lengths::named_fields, crate::proofs::Descriptions::described))]
fn put_parts_of(scheme: &Scheme, rec: u32, out: &mut Line)
    requires { length out.old ≤ 3129 }
    ensures parts { out.new ≡ out.old ++ behind (description_at (slice_get scheme.now rec)) }
    ensures short { length out.new ≤ length out.old + 882 }
{
    if let Some(def) = scheme.def(rec) {
        put_parts(def, out);
    }
}

/// Appends the description of a record.
#[tactic(auto, using(crate::proofs::Joins::described_parts))]
pub fn put_description(scheme: &Scheme, rec: u32, out: &mut Line)
    requires { length out.old ≤ 3096 }
    ensures parts { out.new ≡ out.old ++ joined (texts_of scheme.now (Describe rec)) }
    ensures short { length out.new ≤ length out.old + 1000 }
{
    put(b"=", out);
    put_name(scheme, rec, out);
    put_parts_of(scheme, rec, out);
}
