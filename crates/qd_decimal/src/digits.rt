ghost use Rattle.std.specs.Prelude.{◌≡◌, ◌+◌, ◌-◌, ◌*◌, ◌/◌, ◌%◌, ◌^◌, ◌<◌, ◌≤◌, nat_le, true, length, min, slice_range, Some};
ghost use Rattle.qd_decimal.specs.Grammar.{is_digit};
ghost use Rattle.qd_decimal.specs.Numbers.{with_digit, with_digits, times};
ghost use Rattle.qd_decimal.specs.Reading.{digits_end, zeros_end};

/// Where a run of digits ends, and the number that it makes behind an earlier one, where 64 bits have it.
#[derive(Clone, Copy)]
pub(crate) struct Run {
    pub end: usize,
    pub number: Option<u64>,
}

fn is_digit(byte: u8) -> bool
    ensures { result ≡ is_digit byte }
{
    byte >= b'0' && byte <= b'9'
}

/// What a digit counts, and more than 9 for another byte.
// In 64 bits the machine tests and adds the same value.
#[inline]
fn digit_of(byte: u8) -> u64
    ensures digit { is_digit byte ≡ nat_le result 9 }
    ensures value { is_digit byte ≡ true → result ≡ byte - 48 }
{
    u64::from(byte).wrapping_sub(48)
}

fn with_digit(number: Option<u64>, digit: u8) -> Option<u64>
    ensures { result ≡ with_digit number digit }
{
    let ten = number?.checked_mul(10)?;
    ten.checked_add(u64::from(digit.saturating_sub(b'0')))
}

/// Where a run of digits stops, at its end or where the next digit might not fit, and the number so far.
#[derive(Clone, Copy)]
pub(crate) struct Start {
    pub end: usize,
    pub number: u64,
}

/// A number up to this takes any further digit in 64 bits.
const ROOM: u64 = 1_844_674_407_370_955_160;

/// The first digits from `from` on, up to `to` at most, behind those of `number`.
#[tactic(auto, unfolding(crate::specs::Reading::digits_end))]
pub(crate) fn start_of_run(number: u64, text: &[u8], from: usize, to: usize) -> Start
    requires order { from ≤ to }
    requires within { to ≤ length text.now }
    ensures number { with_digits (Some number) (slice_range text.now from result.end) ≡ Some result.number }
    ensures forward { from ≤ result.end }
    ensures within { result.end ≤ to }
    ensures digits { result.end ≤ digits_end text.now from }
{
    let mut at = from;
    let mut value = number;
    while at < to && value <= ROOM && is_digit(text[at]) {
        value = value * 10 + u64::from(text[at] - b'0');
        at += 1;
    }
    Start {
        end: at,
        number: value,
    }
}

/// The digits from `from` on, up to `to` at most, behind those of `number`: so few that all of them fit.
#[inline]
#[tactic(auto, unfolding(crate::specs::Reading::digits_end))]
pub(crate) fn short_run(number: u64, text: &[u8], from: usize, to: usize) -> Start
    requires order { from ≤ to }
    requires within { to ≤ length text.now }
    requires few { (number + 1) * 10 ^ (to - from) ≤ 10 ^ 18 }
    ensures number { with_digits (Some number) (slice_range text.now from result.end) ≡ Some result.number }
    ensures forward { from ≤ result.end }
    ensures within { result.end ≤ to }
    ensures digits { result.end ≤ digits_end text.now from }
    ensures few { result.number + 1 ≤ (number + 1) * 10 ^ (result.end - from) }
{
    let mut at = from;
    let mut value = number;
    while at < to {
        let digit = digit_of(text[at]);
        if digit > 9 {
            break;
        }
        value = value * 10 + digit;
        at += 1;
    }
    Start {
        end: at,
        number: value,
    }
}

/// The digits from `from` on, up to `to` at most, behind those of `number`, which may not fit.
fn rest_of_run(number: Option<u64>, text: &[u8], from: usize, to: usize) -> Run
    requires order { from ≤ to }
    requires within { to ≤ length text.now }
    ensures end { result.end ≡ min (digits_end text.now from) to }
    ensures number { result.number ≡ with_digits number (slice_range text.now from result.end) }
{
    let mut at = from;
    let mut value = number;
    while at < to && is_digit(text[at]) {
        value = with_digit(value, text[at]);
        at += 1;
    }
    Run {
        end: at,
        number: value,
    }
}

/// The digits from `from` on, up to `to` at most, behind those of `number`.
pub(crate) fn run_of(number: Option<u64>, text: &[u8], from: usize, to: usize) -> Run
    requires order { from ≤ to }
    requires within { to ≤ length text.now }
    ensures end { result.end ≡ min (digits_end text.now from) to }
    ensures number { result.number ≡ with_digits number (slice_range text.now from result.end) }
{
    match number {
        Some(n) => {
            let start = start_of_run(n, text, from, to);
            rest_of_run(Some(start.number), text, start.end, to)
        }
        None => rest_of_run(None, text, from, to),
    }
}

/// Where the digits from `from` on end.
#[tactic(auto, unfolding(crate::specs::Reading::digits_end))]
pub(crate) fn digits_end(text: &[u8], from: usize) -> usize
    requires { from ≤ length text.now }
    ensures end { result ≡ digits_end text.now from }
    ensures forward { from ≤ result }
    ensures within { result ≤ length text.now }
{
    let mut at = from;
    while at < text.len() && is_digit(text[at]) {
        at += 1;
    }
    at
}

/// Where the zeros from `from` on end.
#[tactic(auto, unfolding(crate::specs::Reading::zeros_end))]
pub(crate) fn zeros_end(text: &[u8], from: usize) -> usize
    requires { from ≤ length text.now }
    ensures end { result ≡ zeros_end text.now from }
    ensures forward { from ≤ result }
    ensures within { result ≤ length text.now }
{
    let mut at = from;
    while at < text.len() && text[at] == b'0' {
        at += 1;
    }
    at
}

pub(crate) fn times(number: Option<u64>, power: u64) -> Option<u64>
    ensures { result ≡ times number power }
{
    number?.checked_mul(power)
}

const POWERS: [u64; 10] = [
    1,
    10,
    100,
    1_000,
    10_000,
    100_000,
    1_000_000,
    10_000_000,
    100_000_000,
    1_000_000_000,
];

/// What one place of a number's fraction counts for.
#[tactic(auto, using(crate::proofs::Fractions::power_there, crate::proofs::Fractions::power_positive))]
pub(crate) fn power_of_ten(exponent: u8) -> u64
    requires { exponent ≤ 9 }
    ensures value { result ≡ 10 ^ exponent }
    ensures positive { 0 < result }
{
    POWERS[usize::from(exponent)]
}

/// A number cut before its last digits.
#[derive(Clone, Copy)]
pub(crate) struct Cut {
    pub front: u64,
    pub rest: u64,
}

/// Cuts a number before so many last digits. Each arm divides by a constant, for which the machine needs no division.
pub(crate) fn cut_before(n: u64, places: u8) -> Cut
    requires { places ≤ 9 }
    ensures front { result.front ≡ n / 10 ^ places }
    ensures rest { result.rest ≡ n % 10 ^ places }
{
    match places {
        0 => Cut { front: n, rest: 0 },
        1 => Cut {
            front: n / 10,
            rest: n % 10,
        },
        2 => Cut {
            front: n / 100,
            rest: n % 100,
        },
        3 => Cut {
            front: n / 1_000,
            rest: n % 1_000,
        },
        4 => Cut {
            front: n / 10_000,
            rest: n % 10_000,
        },
        5 => Cut {
            front: n / 100_000,
            rest: n % 100_000,
        },
        6 => Cut {
            front: n / 1_000_000,
            rest: n % 1_000_000,
        },
        7 => Cut {
            front: n / 10_000_000,
            rest: n % 10_000_000,
        },
        8 => Cut {
            front: n / 100_000_000,
            rest: n % 100_000_000,
        },
        _ => Cut {
            front: n / 1_000_000_000,
            rest: n % 1_000_000_000,
        },
    }
}
