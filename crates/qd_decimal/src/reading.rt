ghost use Rattle.std.specs.Prelude.{◌≡◌, ◌+◌, ◌≤◌, length, min, IfOk};
ghost use Rattle.qd_decimal.specs.Exact.{ReadsDecimal, ReadsWhole, ReadsCount};
ghost use Rattle.qd_decimal.specs.Numbers.{signed_fit, count_fit};
ghost use Rattle.qd_decimal.specs.Reading.{digits_end, has_minus, whole_at, rest_at, dec_of, int_of, count_of};

use crate::DecFault;
use crate::digits::{digits_end, power_of_ten, run_of, times, zeros_end};

pub(crate) fn signed_fit(negative: bool, number: Option<u64>) -> Result<i64, DecFault>
    ensures { result ≡ signed_fit negative number }
{
    match number {
        None => Err(DecFault::TooLarge),
        Some(n) => {
            if !negative {
                if n <= 0x7fff_ffff_ffff_ffff {
                    Ok(n as i64)
                } else {
                    Err(DecFault::TooLarge)
                }
            } else if n == 0 {
                Ok(0)
            } else if n <= 0x8000_0000_0000_0000 {
                Ok(-1 - (n - 1) as i64)
            } else {
                Err(DecFault::TooLarge)
            }
        }
    }
}

pub(crate) fn count_fit(most: u64, number: Option<u64>) -> Result<u64, DecFault>
    ensures value { result ≡ count_fit most number }
    ensures within { IfOk result (λ n. n ≤ most) }
{
    match number {
        Some(n) if n <= most => Ok(n),
        _ => Err(DecFault::TooLarge),
    }
}

pub(crate) fn has_minus(text: &[u8]) -> bool
    ensures { result ≡ has_minus text.now }
{
    !text.is_empty() && text[0] == b'-'
}

/// Whether digits alone follow a point, those past `kept` all zeros; `end` is where those up to `kept` end.
fn rest_at(text: &[u8], fraction: usize, kept: usize, end: usize) -> Result<(), DecFault>
    requires order { fraction ≤ kept }
    requires within { kept ≤ length text.now }
    requires short { length text.now ≤ 4096 }
    requires run { end ≡ min (digits_end text.now fraction) kept }
    ensures rest { result ≡ rest_at text.now fraction kept }
    ensures kept { IfOk result (λ _. end ≡ kept) }
{
    if end < kept {
        return Err(DecFault::BadByte(end as u32 + 1));
    }
    let zeros = zeros_end(text, kept);
    if zeros == text.len() {
        return Ok(());
    }
    let digits = digits_end(text, zeros);
    if digits < text.len() {
        return Err(DecFault::BadByte(digits as u32 + 1));
    }
    Err(DecFault::TooFine(zeros as u32 + 1))
}

fn decimal(text: &[u8], scale: u8) -> Result<i64, DecFault>
    requires scale { scale ≤ 9 }
    requires short { length text.now ≤ 4096 }
    ensures { result ≡ dec_of scale text.now }
{
    if text.is_empty() {
        return Err(DecFault::Empty);
    }
    let negative = has_minus(text);
    let start = usize::from(negative);
    let whole = run_of(Some(0), text, start, text.len());
    if whole.end == start {
        return Err(DecFault::BadByte(start as u32 + 1));
    }
    if whole.end < text.len() && text[whole.end] != b'.' {
        return Err(DecFault::BadByte(whole.end as u32 + 1));
    }
    let fraction = (whole.end + 1).min(text.len());
    let kept = (fraction + usize::from(scale)).min(text.len());
    let part = run_of(whole.number, text, fraction, kept);
    rest_at(text, fraction, kept, part.end)?;
    let missing = scale - (kept - fraction) as u8;
    signed_fit(negative, times(part.number, power_of_ten(missing)))
}

/// The digits from `from` to the end, at least one.
fn whole_at(text: &[u8], from: usize) -> Result<Option<u64>, DecFault>
    requires short { length text.now ≤ 4096 }
    requires within { from ≤ length text.now }
    ensures { result ≡ whole_at text.now from }
{
    let whole = run_of(Some(0), text, from, text.len());
    if whole.end == from || whole.end < text.len() {
        return Err(DecFault::BadByte(whole.end as u32 + 1));
    }
    Ok(whole.number)
}

fn int(text: &[u8]) -> Result<i64, DecFault>
    requires { length text.now ≤ 4096 }
    ensures { result ≡ int_of text.now }
{
    if text.is_empty() {
        return Err(DecFault::Empty);
    }
    let negative = has_minus(text);
    let number = whole_at(text, usize::from(negative))?;
    signed_fit(negative, number)
}

fn count(text: &[u8], most: u64) -> Result<u64, DecFault>
    requires { length text.now ≤ 4096 }
    ensures { result ≡ count_of most text.now }
{
    if text.is_empty() {
        return Err(DecFault::Empty);
    }
    let number = whole_at(text, 0)?;
    count_fit(most, number)
}

/// A decimal number times 10 ^ `scale`, or the first fault.
pub fn read_dec(text: &[u8], scale: u8) -> Result<i64, DecFault>
    requires scale { scale ≤ 9 }
    requires short { length text.now ≤ 4096 }
    ensures value { result ≡ dec_of scale text.now }
    ensures exact { ReadsDecimal scale text.now result }
{
    decimal(text, scale)
}

/// A whole number, or the first fault.
pub fn read_int(text: &[u8]) -> Result<i64, DecFault>
    requires { length text.now ≤ 4096 }
    ensures value { result ≡ int_of text.now }
    ensures exact { ReadsWhole text.now result }
{
    int(text)
}

/// A count of at most `most`, or the first fault.
pub fn read_count(text: &[u8], most: u64) -> Result<u64, DecFault>
    requires { length text.now ≤ 4096 }
    ensures value { result ≡ count_of most text.now }
    ensures exact { ReadsCount most text.now result }
    ensures within { IfOk result (λ n. n ≤ most) }
{
    count(text, most)
}
