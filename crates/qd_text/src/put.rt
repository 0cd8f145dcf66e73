//! The parts of canonical lines: each function appends to a line that has room for it.

ghost use Rattle.std.specs.Prelude.{◌≡◌, ◌≤◌, ◌<◌, ◌+◌, ◌++◌, ◌∷◌, [], length, decimal, IsTrue, All, slice_get};
ghost use Rattle.qd_decimal.specs.Texts.{dec_text};
ghost use Rattle.qd_scheme.specs.Faults.{has_scale};
ghost use Rattle.qd_grammar.specs.Body.{kinds_of};
ghost use Rattle.qd_grammar.specs.Canonical.{behind, joined, name_at, cell_text, cell_texts, key_texts};

use qd_decimal::{Line, write_count, write_count_part, write_dec_part};
use qd_scheme::{FieldDef, FieldKind, Key, Scheme};

/// Appends bytes.
pub fn put(bytes: &[u8], out: &mut Line)
    requires { length out.old + length bytes.now ≤ 4096 }
    ensures bytes { out.new ≡ out.old ++ bytes.now }
    ensures len { length out.new ≡ length out.old + length bytes.now }
{
    let _ = out.append(bytes);
}

/// Appends a TAB.
pub fn put_tab(out: &mut Line)
    requires { length out.old ≤ 4095 }
    ensures tab { out.new ≡ out.old ++ 9 ∷ [] }
    ensures len { length out.new ≡ length out.old + 1 }
{
    let _ = out.push(b'\t');
}

/// Appends a TAB and bytes.
#[tactic(auto, using(crate::proofs::Joins::byte_then))]
pub fn put_part(bytes: &[u8], out: &mut Line)
    requires { length out.old + length bytes.now ≤ 4095 }
    ensures part { out.new ≡ out.old ++ 9 ∷ bytes.now }
    ensures len { length out.new ≡ length out.old + length bytes.now + 1 }
{
    put_tab(out);
    put(bytes, out);
}

/// Appends a count.
#[tactic(auto, using(crate::proofs::Lengths::count_short))]
pub fn put_digits(n: u64, out: &mut Line)
    requires { length out.old ≤ 4076 }
    ensures count { out.new ≡ out.old ++ decimal n }
    ensures short { length out.new ≤ length out.old + 20 }
{
    let _ = write_count(n, out);
}

/// Appends a TAB and a count.
#[tactic(auto, using(crate::proofs::Lengths::count_short))]
pub fn put_count(n: u64, out: &mut Line)
    requires { length out.old ≤ 4075 }
    ensures part { out.new ≡ out.old ++ 9 ∷ decimal n }
    ensures short { length out.new ≤ length out.old + 21 }
{
    let _ = write_count_part(n, out);
}

/// Appends a TAB and a decimal number.
#[tactic(auto, using(crate::proofs::Lengths::text_short))]
fn put_dec(value: i64, scale: u8, out: &mut Line)
    requires scaled { scale ≤ 9 }
    requires room { length out.old ≤ 4060 }
    ensures part { out.new ≡ out.old ++ 9 ∷ dec_text scale value }
    ensures short { length out.new ≤ length out.old + 32 }
{
    let _ = write_dec_part(value, scale, out);
}

/// Appends a TAB and a field's cell.
fn put_cell(kind: FieldKind, value: i64, out: &mut Line)
    requires scaled { IsTrue (has_scale kind) }
    requires room { length out.old ≤ 4060 }
    ensures part { out.new ≡ out.old ++ 9 ∷ cell_text kind value }
    ensures short { length out.new ≤ length out.old + 32 }
{
    match kind {
        FieldKind::Int => put_dec(value, 0, out),
        FieldKind::Dec(scale) => put_dec(value, scale, out),
    }
}

/// Appends the cells of a record's fields, a TAB before each.
#[tactic(auto, using(crate::proofs::Joins::cells_left, crate::proofs::Joins::no_values, crate::proofs::Joins::no_fields_left, crate::proofs::Cells::scaled_field))]
pub fn put_cells(fields: &[FieldDef], values: &[i64], out: &mut Line)
    requires few { length fields.now ≤ 16 }
    requires scaled { All (λ field. IsTrue (has_scale field.kind)) fields.now }
    requires room { length out.old ≤ 3548 }
    ensures parts { out.new ≡ out.old ++ behind (cell_texts (kinds_of fields.now) values.now) }
    ensures short { length out.new ≤ length out.old + 512 }
{
    for (i, field) in fields.iter().enumerate() {
        if i >= values.len() {
            return;
        }
        put_cell(field.kind, values[i], out);
    }
}

/// Appends the name of a record.
#[tactic(auto, using(crate::proofs::Lengths::name_short))]
pub fn put_name(scheme: &Scheme, rec: u32, out: &mut Line)
    requires { length out.old ≤ 4064 }
    ensures name { out.new ≡ out.old ++ name_at (slice_get scheme.now rec) }
    ensures short { length out.new ≤ length out.old + 32 }
{
    if let Some(def) = scheme.def(rec) {
        put(def.name.bytes(), out);
    }
}

/// Appends a key's record and symbol.
#[tactic(auto, using(crate::proofs::Joins::two_parts))]
pub fn put_key(scheme: &Scheme, key: &Key, out: &mut Line)
    requires { length out.old ≤ 3999 }
    ensures key { out.new ≡ out.old ++ joined (key_texts scheme.now key.now) }
    ensures short { length out.new ≤ length out.old + 97 }
{
    put_name(scheme, key.rec, out);
    put_part(key.sym.bytes(), out);
}
