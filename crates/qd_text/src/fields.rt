//! What one part of a line says.

ghost use Rattle.std.specs.Prelude.{◌≡◌, ◌≤◌, ◌<◌, ◌+◌, ◌^◌, ◌-◌, length, IfOk, IfErr, IsTrue};
ghost use Rattle.qd_scheme.specs.Faults.{has_scale};
ghost use Rattle.qd_decimal.specs.Fronts.{front_read};
ghost use Rattle.qd_decimal.specs.Reading.{count_of};
ghost use Rattle.qd_grammar.specs.declared.fault.Why.TheVariants.{Number};
ghost use Rattle.qd_grammar.specs.Fields.{symbol_told, told_at, fault_place, number_of_kind, count_at, symbol_at, cell_at, flags_at, loss_at};
ghost use Rattle.qd_text.specs.Cursor.{left, seen, seen_with};
ghost use Rattle.qd_text.specs.Near.{IsNear};

use crate::cursor::{fault_at, part_end};
use qd_decimal::{DecFault, Front, front_dec, front_int, read_count};
use qd_grammar::{Fault, Why};
use qd_scheme::{FieldKind, Sym};

fn fault_place(at: usize, why: DecFault) -> u32
    requires short { at ≤ 4096 }
    requires near { IsNear why }
    ensures { result ≡ fault_place (at + 1) why }
{
    let place = at as u32 + 1;
    match why {
        DecFault::Empty | DecFault::TooLarge => place,
        DecFault::BadByte(p) => place + p - 1,
        DecFault::TooFine(p) => place + p - 1,
    }
}

/// The fault of the number of the part that begins at `at`.
fn number_fault(at: usize, why: DecFault) -> Fault
    requires short { at ≤ 4096 }
    requires near { IsNear why }
    ensures { result ≡ record { place = fault_place (at + 1) why; why = Number why } }
{
    Fault {
        place: fault_place(at, why),
        why: Why::Number(why),
    }
}

/// What the number of the part that begins at `at` says.
fn told_at<T: Drop>(at: usize, read: Result<T, DecFault>) -> Result<T, Fault>
    requires short { at ≤ 4096 }
    requires near { IfErr read IsNear }
    ensures { result ≡ told_at (at + 1) read }
{
    match read {
        Ok(value) => Ok(value),
        Err(why) => Err(number_fault(at, why)),
    }
}

#[tactic(auto, using(crate::proofs::Near::near_count))]
fn count_of(text: &[u8], most: u64) -> Result<u64, DecFault>
    requires { length text.now ≤ 4096 }
    ensures value { result ≡ count_of most text.now }
    ensures near { IfErr result IsNear }
    ensures within { IfOk result (λ n. n ≤ most) }
{
    read_count(text, most)
}

/// A count of at most `most`.
#[tactic(auto, unfolding(qd_grammar::specs::Fields::count_at))]
pub fn count_at(line: &[u8], at: usize, most: u64) -> Result<(u64, usize), Fault>
    requires short { length line.now ≤ 4096 }
    requires within { at ≤ length line.now + 1 }
    ensures read { seen line.now (λ n. n) result ≡ count_at most (length line.now + 1) (left line.now at) }
    ensures order { IfOk result (λ read. read.1 ≤ length line.now + 1) }
{
    let to = part_end(line, at)?;
    let n = told_at(at, count_of(&line[at..to], most))?;
    Ok((n, to + 1))
}

/// The number at the front of a text, as a field's kind asks.
fn front_of_kind(kind: FieldKind, text: &[u8]) -> Result<Front, DecFault>
    requires scaled { IsTrue (has_scale kind) }
    requires short { length text.now ≤ 4096 }
    ensures { result ≡ front_read (number_of_kind kind) text.now }
{
    match kind {
        FieldKind::Int => front_int(text),
        FieldKind::Dec(scale) => front_dec(text, scale),
    }
}

/// A field's cell, in one pass over its bytes.
#[tactic(auto, using(crate::proofs::FrontCells::front_cell, crate::proofs::FrontCells::front_within, crate::proofs::FrontCells::front_fault, crate::proofs::FrontCells::front_near, crate::proofs::FrontCells::no_cell))]
pub fn cell_at(line: &[u8], at: usize, kind: FieldKind) -> Result<(i64, usize), Fault>
    requires scaled { IsTrue (has_scale kind) }
    requires short { length line.now ≤ 4096 }
    requires within { at ≤ length line.now + 1 }
    ensures read { seen line.now (λ z. z) result ≡ cell_at kind (length line.now + 1) (left line.now at) }
    ensures order { IfOk result (λ read. read.1 ≤ length line.now + 1) }
{
    if at > line.len() {
        return Err(fault_at(line.len(), Why::Form));
    }
    match front_of_kind(kind, &line[at..]) {
        Ok(front) => Ok((front.value, at + front.len + 1)),
        Err(why) => Err(number_fault(at, why)),
    }
}

#[tactic(auto, using(crate::proofs::Near::near_symbol))]
fn symbol_told(at: usize, text: &[u8]) -> Result<Sym, Fault>
    requires short { at ≤ 4096 }
    ensures { result ≡ symbol_told (at + 1) text.now }
{
    match Sym::of(text) {
        Ok(symbol) => Ok(symbol),
        Err(p) => Err(Fault {
            place: at as u32 + p,
            why: Why::BadSymbol,
        }),
    }
}

/// The symbol of the part at `at`, and where the part behind it begins.
#[tactic(auto, unfolding(qd_grammar::specs::Fields::symbol_at))]
pub fn symbol_at(line: &[u8], at: usize) -> Result<(Sym, usize), Fault>
    requires short { length line.now ≤ 4096 }
    requires within { at ≤ length line.now + 1 }
    ensures read { seen line.now (λ s. s) result ≡ symbol_at (length line.now + 1) (left line.now at) }
    ensures order { IfOk result (λ read. read.1 ≤ length line.now + 1) }
{
    let to = part_end(line, at)?;
    let symbol = symbol_told(at, &line[at..to])?;
    Ok((symbol, to + 1))
}

/// The same in place of another symbol.
#[inline(always)]
#[tactic(auto, unfolding(qd_grammar::specs::Fields::symbol_at))]
pub fn symbol_into(line: &[u8], at: usize, symbol: &mut Sym) -> Result<usize, Fault>
    requires short { length line.now ≤ 4096 }
    requires within { at ≤ length line.now + 1 }
    ensures read { seen_with line.now symbol.new result ≡ symbol_at (length line.now + 1) (left line.now at) }
    ensures order { IfOk result (λ next. next ≤ length line.now + 1) }
{
    let to = part_end(line, at)?;
    *symbol = symbol_told(at, &line[at..to])?;
    Ok(to + 1)
}

/// Flags, of which 0x20 and 0x80 are none.
#[tactic(auto, unfolding(qd_grammar::specs::Fields::flags_at))]
pub fn flags_at(line: &[u8], at: usize) -> Result<(u8, usize), Fault>
    requires short { length line.now ≤ 4096 }
    requires within { at ≤ length line.now + 1 }
    ensures read { seen line.now (λ n. n) result ≡ flags_at (length line.now + 1) (left line.now at) }
    ensures order { IfOk result (λ read. read.1 ≤ length line.now + 1) }
{
    let to = part_end(line, at)?;
    let n = told_at(at, count_of(&line[at..to], 255))?;
    if n & 0xa0 == 0 {
        Ok((n as u8, to + 1))
    } else {
        Err(fault_at(at, Why::BadFlags))
    }
}

/// A count that is not 0.
#[tactic(auto, unfolding(qd_grammar::specs::Fields::loss_at))]
pub fn loss_at(line: &[u8], at: usize) -> Result<(u64, usize), Fault>
    requires short { length line.now ≤ 4096 }
    requires within { at ≤ length line.now + 1 }
    ensures read { seen line.now (λ n. n) result ≡ loss_at (length line.now + 1) (left line.now at) }
    ensures order { IfOk result (λ read. read.1 ≤ length line.now + 1) }
{
    let to = part_end(line, at)?;
    let n = told_at(at, count_of(&line[at..to], u64::MAX))?;
    if n == 0 {
        return Err(fault_at(at, Why::Form));
    }
    Ok((n, to + 1))
}
