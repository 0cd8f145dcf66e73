//! Cells: the values of a record's fields.
ghost use Rattle.std.specs.Prelude.{◌≡◌, ◌≤◌, ◌<◌, ◌↔◌, ◌∷◌, ◌++◌, [], pos, length, drop, replicate, IsSome, IfSome};

use std::marker::Model;

/// The values of a record's fields, at most 16.
// The values past its length are zeros, so that equal cells are equal values.
#[derive(Clone, Copy, Debug)]
pub struct Cells {
    len: u8,
    values: [i64; 16],
}

impl Model for Cells {
    ghost use Rattle.std.specs.Prelude.{List, take, ℤ, pos};
    ghost use Rattle.qd_scheme.specs.Padded.{IsPadded};
    ghost use Rattle.qd_scheme.specs.PaddedCells.{with_padding, with_padding_back};

    ghost Value = { List ℤ };

    ghost view = { λ s. take s.len s.values };

    ghost invariant = { λ s. IsPadded 16 (pos 0) s.len s.values };

    ghost inverse = { with_padding };

    ghost inverse_ok = { with_padding_back };
}

impl Cells {
    /// No values.
    pub fn new() -> Cells
        ensures { result ≡ [] }
    {
        Cells {
            len: 0,
            values: [0; 16],
        }
    }

    /// These values, if they are at most 16.
    pub fn of(values: &[i64]) -> Option<Cells>
        ensures within { IsSome result ↔ (length values.now ≤ 16) }
        ensures values { IfSome result (λ cells. cells ≡ values.now) }
    {
        if values.len() > 16 {
            return None;
        }
        Some(Cells {
            len: values.len() as u8,
            values: padded(values),
        })
    }

    /// The values, in the order of the record's fields.
    pub fn values(&self) -> &[i64]
        ensures values { result.now ≡ self.now }
        ensures within { length self.now ≤ 16 }
    {
        &self.values[..usize::from(self.len)]
    }

    /// One more value at the end; the caller sees to it that there are at most 16.
    pub fn push(&mut self, value: i64)
        requires { length self.old < 16 }
        ensures { self.new ≡ self.old ++ value ∷ [] }
    {
        self.values[usize::from(self.len)] = value;
        self.len += 1;
    }
}

impl PartialEq for Cells {
    ghost use Rattle.std.specs.Ordering.{int_eq};
    ghost use Rattle.std.specs.Cmp.{partial_equiv_from_equiv};
    ghost use Rattle.std.specs.Cmp.Lexicographic.{pointwise};
    ghost use Rattle.qd_scheme.specs.Comparing.{int_list_eq_equiv};

    ghost eq = { pointwise int_eq };

    ghost laws = { partial_equiv_from_equiv int_list_eq_equiv };

    fn eq(&self, other: &Cells) -> bool {
        self.values() == other.values()
    }
}

impl Eq for Cells {
    ghost use Rattle.qd_scheme.specs.Comparing.{int_list_eq_equiv};

    ghost laws = { int_list_eq_equiv };
}

/// These values, with zeros up to 16.
fn padded(values: &[i64]) -> [i64; 16]
    requires { length values.now ≤ 16 }
    ensures { result ≡ values.now ++ drop (length values.now) (replicate 16 (pos 0)) }
{
    let mut all = [0; 16];
    all[..values.len()].copy_from_slice(values);
    all
}
