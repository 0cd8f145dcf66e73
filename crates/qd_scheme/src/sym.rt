//! Symbols: the texts that name instruments.
ghost use Rattle.std.specs.Prelude.{◌≡◌, ◌≤◌, ◌++◌, length, drop, replicate, MatchOption, IfNone};
ghost use Rattle.std.specs.List.{prefix_len};
ghost use Rattle.qd_scheme.specs.Symbols.{symbol_of, IsSymbol, is_symbol_byte, is_reserved};

use std::hash::{Hash, Hasher};
use std::marker::Model;

/// A symbol: 1 to 64 printed ASCII bytes other than the space, the first neither `=` nor `#`, and not the single byte `"`.
// The bytes past its length are zeros, so that equal symbols are equal values.
#[derive(Clone, Copy, Debug)]
pub struct Sym {
    len: u8,
    bytes: [u8; 64],
}

impl Model for Sym {
    ghost use Rattle.std.specs.Prelude.{ℕ, List, take};
    ghost use Rattle.qd_scheme.specs.Padded.{IsPadded};
    ghost use Rattle.qd_scheme.specs.Symbols.{IsSymbol};
    ghost use Rattle.qd_scheme.specs.PaddedSym.{with_padding, with_padding_back};

    ghost Value = { List ℕ };

    ghost view = { λ s. take s.len s.bytes };

    ghost invariant = { λ s. (IsPadded 64 0 s.len s.bytes) × (IsSymbol (take s.len s.bytes)) };

    ghost inverse = { with_padding };

    ghost inverse_ok = { λ s inside. with_padding_back s inside.0 };
}

impl Sym {
    /// The symbol that a text is, or the place of its first wrong byte, from 1. It is 1 for the empty text, and 65 for a text whose
    /// first 64 bytes are right and that goes on.
    pub fn of(text: &[u8]) -> Result<Sym, u32>
        ensures { result ≡ symbol_of text.now }
    {
        if let Some(place) = first_wrong_place(text) {
            return Err(place);
        }
        Ok(Sym {
            len: text.len() as u8,
            bytes: padded(text),
        })
    }

    /// The text of the symbol, 1 to 64 bytes.
    pub fn bytes(&self) -> &[u8]
        ensures bytes { result.now ≡ self.now }
        ensures symbol { IsSymbol self.now }
        ensures within { length self.now ≤ 64 }
    {
        &self.bytes[..usize::from(self.len)]
    }
}

impl PartialEq for Sym {
    ghost use Rattle.std.specs.Cmp.{partial_equiv_from_equiv};
    ghost use Rattle.qd_scheme.specs.Keys.{sym_eq};
    ghost use Rattle.std.proofs.lemmas.Cmp.{nat_list_eq_equiv};

    ghost eq = { sym_eq };

    ghost laws = { partial_equiv_from_equiv nat_list_eq_equiv };

    fn eq(&self, other: &Sym) -> bool {
        self.bytes() == other.bytes()
    }
}

impl Eq for Sym {
    ghost use Rattle.std.proofs.lemmas.Cmp.{nat_list_eq_equiv};

    ghost laws = { nat_list_eq_equiv };
}

impl Hash for Sym {
    ghost use Rattle.qd_scheme.specs.Hashing.{sym_input, sym_input-Alike};

    ghost hash_input = { sym_input };

    ghost respects_eq = { sym_input-Alike };

    fn hash<H: Hasher>(&self, state: &mut H) {
        state.write(self.bytes());
    }
}

fn is_symbol_byte(byte: u8) -> bool
    ensures { result ≡ is_symbol_byte byte }
{
    byte >= 0x21 && byte <= 0x7e
}

fn is_reserved(byte: u8) -> bool
    ensures { result ≡ is_reserved byte }
{
    byte == b'=' || byte == b'#'
}

/// The place of a text's first wrong byte, from 1. A symbol has none.
#[tactic(auto, unfolding(crate::specs::Symbols::symbol_of))]
fn first_wrong_place(text: &[u8]) -> Option<u32>
    ensures place { MatchOption result (IsSymbol text.now) (λ place. symbol_of text.now ≡ Err place) }
    ensures few { IfNone result (length text.now ≤ 64) }
{
    if text.is_empty() || is_reserved(text[0]) || (text.len() == 1 && text[0] == b'"') {
        return Some(1);
    }
    let good = good_bytes(text);
    if good < text.len().min(64) {
        return Some(good as u32 + 1);
    }
    if text.len() > 64 {
        return Some(65);
    }
    None
}

/// How many bytes from the front on may stand in a symbol.
fn good_bytes(text: &[u8]) -> usize
    ensures good { result ≡ prefix_len is_symbol_byte text.now }
    ensures within { result ≤ length text.now }
{
    let mut at = 0;
    while at < text.len() && is_symbol_byte(text[at]) {
        at += 1;
    }
    at
}

/// A text, with zeros up to 64 bytes.
fn padded(text: &[u8]) -> [u8; 64]
    requires { length text.now ≤ 64 }
    ensures { result ≡ text.now ++ drop (length text.now) (replicate 64 0) }
{
    let mut bytes = [0; 64];
    bytes[..text.len()].copy_from_slice(text);
    bytes
}
