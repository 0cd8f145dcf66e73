//! A line read part by part: each function takes the index at which the parts that are left begin, and tells where
//! the next ones do.

ghost use Rattle.std.specs.Prelude.{◌≡◌, ◌≤◌, ◌<◌, ◌+◌, ◌==◌, not, length, drop, IfOk, slice_range, slice_index, ◌∷◌};
ghost use Rattle.std.specs.List.{prefix_len};
ghost use Rattle.qd_decimal.specs.Fronts.{ends_part};
ghost use Rattle.qd_grammar.specs.Parts.{a_part, no_part, parts_of};
ghost use Rattle.qd_text.specs.Cursor.{left, first_of, part_seen};

use qd_grammar::{Fault, Why};

/// A fault at the byte of an index.
pub fn fault_at(at: usize, why: Why) -> Fault
    requires { at ≤ 4096 }
    ensures { result ≡ record { place = at + 1; why = why } }
{
    Fault {
        place: at as u32 + 1,
        why,
    }
}

/// Where the part that begins at `at` ends.
pub fn tab_from(line: &[u8], at: usize) -> usize
    requires { at ≤ length line.now }
    ensures tab { result ≡ at + prefix_len (λ b. not (b == 9)) (drop at line.now) }
    ensures order { at ≤ result }
    ensures within { result ≤ length line.now }
    ensures some { at < length line.now → (slice_index line.now at ≡ 9 → ⊥) → at < result }
{
    let mut to = at;
    while to < line.len() && line[to] != b'\t' {
        to += 1;
    }
    to
}

/// Whether a part that goes so far ends there.
pub fn ends_part(line: &[u8], at: usize) -> bool
    requires { at ≤ length line.now }
    ensures { result ≡ ends_part line.now at }
{
    at == line.len() || line[at] == b'\t'
}

/// Where the next part ends.
#[tactic(auto, using(crate::proofs::Cuts::part_of_line, crate::proofs::Cuts::no_part_left))]
pub fn part_end(line: &[u8], at: usize) -> Result<usize, Fault>
    requires short { length line.now ≤ 4096 }
    requires within { at ≤ length line.now + 1 }
    ensures part { part_seen line.now at result ≡ a_part (length line.now + 1) (left line.now at) }
    ensures order { IfOk result (λ end. (at ≤ end) × (end ≤ length line.now)) }
{
    if at > line.len() {
        return Err(fault_at(line.len(), Why::Form));
    }
    Ok(tab_from(line, at))
}

/// That no part is left.
#[tactic(auto, using(crate::proofs::Cuts::no_part_is_left, crate::proofs::Cuts::a_part_is_left))]
pub fn line_end(line: &[u8], at: usize) -> Result<(), Fault>
    requires short { length line.now ≤ 4096 }
    requires within { at ≤ length line.now + 1 }
    ensures { result ≡ no_part (length line.now + 1) (left line.now at) }
{
    if at > line.len() {
        Ok(())
    } else {
        Err(fault_at(at, Why::Form))
    }
}

/// Where the first part ends.
#[tactic(auto, using(crate::proofs::Cuts::first_part))]
pub fn first_end(line: &[u8]) -> usize
    ensures some { 0 < length line.now → (slice_index line.now 0 ≡ 9 → ⊥) → 0 < result }
    ensures first { parts_of line.now ≡ first_of line.now result ∷ left line.now (result + 1) }
    ensures within { result ≤ length line.now }
{
    tab_from(line, 0)
}
