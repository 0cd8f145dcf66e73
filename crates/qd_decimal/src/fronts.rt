//! The number at the front of a text, up to a TAB or to the end.
//!
//! Most numbers of a line are a few digits. They are read here in one pass over their bytes, without a search for the TAB
//! before: up to 18 digits fit in 64 bits with a sign, so neither a digit nor the value asks whether there is room for it.
//! Where that pass does not come to the end of the number, the number is cut out and read by [`read_dec`] or [`read_int`],
//! which know each fault.

ghost use Rattle.std.specs.Prelude.{◌≡◌, ◌+◌, ◌*◌, ◌<◌, ◌≤◌, ◌^◌, length, Some};
ghost use Rattle.qd_decimal.specs.Fronts.{ends_part, part_len, with_len, front_read};
ghost use Rattle.qd_decimal.specs.Numbers.{signed_fit, times};
ghost use Rattle.qd_decimal.specs.Reading.{dec_of, int_of};

use crate::DecFault;
use crate::digits::{power_of_ten, short_run};
use crate::reading::{has_minus, read_dec, read_int};

/// A number, and how many bytes its text has.
#[derive(Clone, Copy, Debug, PartialEq, Eq)]
pub struct Front {
    pub value: i64,
    pub len: usize,
}

/// So many digits always fit in 64 bits with a sign.
const FEW: usize = 18;

/// Whether the first part of a text ends at this place, if it goes so far.
#[inline]
fn ends_part(text: &[u8], at: usize) -> bool
    requires { at ≤ length text.now }
    ensures { result ≡ ends_part text.now at }
{
    at == text.len() || text[at] == b'\t'
}

/// How many bytes the first part of a text has.
fn part_len(text: &[u8]) -> usize
    ensures len { result ≡ part_len text.now }
    ensures within { result ≤ length text.now }
{
    let mut at = 0;
    while at < text.len() && text[at] != b'\t' {
        at += 1;
    }
    at
}

#[inline]
fn with_len(len: usize, read: Result<i64, DecFault>) -> Result<Front, DecFault>
    ensures { result ≡ with_len len read }
{
    match read {
        Ok(value) => Ok(Front { value, len }),
        Err(fault) => Err(fault),
    }
}

/// The number of so few digits that it fits with a sign, behind which `missing` zeros are left out.
#[inline]
#[tactic(auto, using(crate::proofs::FewDigits::few_told))]
fn front_of(negative: bool, digits: u64, missing: u8, len: usize) -> Result<Front, DecFault>
    requires places { missing ≤ 9 }
    requires small { digits * 10 ^ missing < 10 ^ 18 }
    ensures { result ≡ with_len len (signed_fit negative (times (Some digits) (10 ^ missing))) }
{
    let number = (digits * power_of_ten(missing)) as i64;
    let value = if negative { -number } else { number };
    Ok(Front { value, len })
}

/// The decimal number that stands before the first TAB, cut out.
fn cut_dec(text: &[u8], scale: u8) -> Result<Front, DecFault>
    requires scale { scale ≤ 9 }
    requires short { length text.now ≤ 4096 }
    ensures { result ≡ front_read (dec_of scale) text.now }
{
    let len = part_len(text);
    with_len(len, read_dec(&text[..len], scale))
}

/// The whole number that stands before the first TAB, cut out.
fn cut_int(text: &[u8]) -> Result<Front, DecFault>
    requires { length text.now ≤ 4096 }
    ensures { result ≡ front_read int_of text.now }
{
    let len = part_len(text);
    with_len(len, read_int(&text[..len]))
}

/// The decimal number times 10 ^ `scale` that stands before the first TAB, with its length, or its first fault.
pub fn front_dec(text: &[u8], scale: u8) -> Result<Front, DecFault>
    requires scale { scale ≤ 9 }
    requires short { length text.now ≤ 4096 }
    ensures { result ≡ front_read (dec_of scale) text.now }
{
    let negative = has_minus(text);
    let start = usize::from(negative);
    let most = text.len().min(start + FEW - usize::from(scale));
    let whole = short_run(0, text, start, most);
    if whole.end == start {
        return cut_dec(text, scale);
    }
    if ends_part(text, whole.end) {
        return front_of(negative, whole.number, scale, whole.end);
    }
    if text[whole.end] != b'.' {
        return cut_dec(text, scale);
    }
    let fraction = whole.end + 1;
    let kept = text.len().min(fraction + usize::from(scale));
    let part = short_run(whole.number, text, fraction, kept);
    if !ends_part(text, part.end) {
        return cut_dec(text, scale);
    }
    let missing = scale - (part.end - fraction) as u8;
    front_of(negative, part.number, missing, part.end)
}

/// The whole number that stands before the first TAB, with its length, or its first fault.
pub fn front_int(text: &[u8]) -> Result<Front, DecFault>
    requires { length text.now ≤ 4096 }
    ensures { result ≡ front_read int_of text.now }
{
    let negative = has_minus(text);
    let start = usize::from(negative);
    let most = text.len().min(start + FEW);
    let whole = short_run(0, text, start, most);
    if whole.end == start || !ends_part(text, whole.end) {
        return cut_int(text);
    }
    front_of(negative, whole.number, 0, whole.end)
}
