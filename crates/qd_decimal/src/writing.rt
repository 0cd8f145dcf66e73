//! Numbers are written from their last byte to the first, up to the middle of a small buffer.

ghost use Rattle.std.specs.Prelude.{◌≡◌, ◌+◌, ◌%◌, ◌^◌, ◌<◌, ◌≤◌, ◌++◌, ◌∷◌, length, drop, nat_le, decimal, if◌then◌else◌};
ghost use Rattle.qd_decimal.specs.Texts.{fraction_text, point_text, magnitude_text, dec_text};

use crate::Line;
use crate::digits::{cut_before, power_of_ten};
use itoa::write_digits;

/// The middle of a buffer, up to which numbers are written, is further from its front than the longest text of a number.
const MIDDLE: usize = 32;

/// Appends the canonical text of a count, unless there is too little room.
#[tactic(auto, using(crate::proofs::Fractions::count_short, crate::proofs::Copies::short_room, crate::proofs::Copies::short_appended))]
pub fn write_count(value: u64, out: &mut Line) -> bool
    ensures room { result ≡ nat_le (length out.old + length (decimal value)) 4096 }
    ensures appended { out.new ≡ (if result then out.old ++ decimal value else out.old) }
{
    let mut buffer = [0; 64];
    let start = write_digits(value, &mut buffer, MIDDLE);
    out.append_short(&buffer, start)
}

/// Appends a TAB and the canonical text of a count, unless there is too little room for both. A count of one or two digits,
/// as most are, takes no buffer.
#[inline(always)]
pub fn write_count_part(value: u64, out: &mut Line) -> bool
    ensures room { result ≡ nat_le (length out.old + length (9 ∷ decimal value)) 4096 }
    ensures appended { out.new ≡ (if result then out.old ++ 9 ∷ decimal value else out.old) }
{
    if value < 10 {
        return out.append(&[b'\t', b'0' + value as u8]);
    }
    if value < 100 {
        let tens = b'0' + (value / 10) as u8;
        let ones = b'0' + (value % 10) as u8;
        return out.append(&[b'\t', tens, ones]);
    }
    write_long_part(value, out)
}

/// Appends a TAB and the canonical text of any count, unless there is too little room for both.
#[tactic(auto, using(crate::proofs::Fractions::count_short, crate::proofs::Copies::short_room, crate::proofs::Copies::short_appended))]
fn write_long_part(value: u64, out: &mut Line) -> bool
    ensures room { result ≡ nat_le (length out.old + length (9 ∷ decimal value)) 4096 }
    ensures appended { out.new ≡ (if result then out.old ++ 9 ∷ decimal value else out.old) }
{
    let mut buffer = [0; 64];
    let digits = write_digits(value, &mut buffer, MIDDLE);
    let start = put_before(b'\t', digits, &mut buffer);
    out.append_short(&buffer, start)
}

/// Writes a byte before what stands in a buffer. Tells where it stands.
#[inline]
#[tactic(auto, using(crate::proofs::FixedDigits::byte_before))]
fn put_before(byte: u8, start: usize, buffer: &mut [u8; 64]) -> usize
    requires some { 0 < start }
    requires within { start ≤ 32 }
    ensures text { drop result buffer.new ≡ byte ∷ drop start buffer.old }
    ensures before { result + 1 ≡ start }
{
    buffer[start - 1] = byte;
    start - 1
}

/// The digits behind a point, as a number of so many digits.
#[derive(Clone, Copy)]
struct Fraction {
    places: u8,
    digits: u64,
}

/// A fraction without the zeros at its end.
#[tactic(auto, using(crate::proofs::FixedDigits::fewer, crate::proofs::FixedDigits::tenth_below, crate::proofs::FixedDigits::some_place))]
fn without_zeros(places: u8, part: u64) -> Fraction
    requires some { 0 < part }
    requires part { part < 10 ^ places }
    ensures text { fraction_text result.places result.digits ≡ fraction_text places part }
    ensures last { 0 < result.digits % 10 }
    ensures fits { result.digits < 10 ^ result.places }
    ensures fewer { result.places ≤ places }
{
    let mut left = places;
    let mut rest = part;
    while rest % 10 == 0 {
        rest /= 10;
        left -= 1;
    }
    Fraction {
        places: left,
        digits: rest,
    }
}

/// Writes a point and the digits behind it, or nothing, up to the middle of a buffer. Tells where they begin.
fn write_point(places: u8, part: u64, buffer: &mut [u8; 64]) -> usize
    requires places { places ≤ 9 }
    requires part { part < 10 ^ places }
    ensures text { drop result buffer.new ≡ point_text places part ++ drop 32 buffer.old }
    ensures within { result ≤ 32 }
    ensures room { 22 ≤ result }
{
    if part == 0 {
        return MIDDLE;
    }
    // A 1 before the digits keeps the zeros that they begin with. The point takes its place.
    let fraction = without_zeros(places, part);
    let number = power_of_ten(fraction.places) + fraction.digits;
    let start = write_digits(number, buffer, MIDDLE);
    buffer[start] = b'.';
    start
}

/// Writes the canonical text of a number's distance from 0 up to the middle of a buffer. Tells where it begins.
#[tactic(auto, using(crate::proofs::FixedDigits::part_below, crate::proofs::FixedDigits::front_then_point), unfolding(crate::specs::Texts::magnitude_text))]
fn write_magnitude(n: u64, scale: u8, buffer: &mut [u8; 64]) -> usize
    requires { scale ≤ 9 }
    ensures text { drop result buffer.new ≡ magnitude_text scale n ++ drop 32 buffer.old }
    ensures within { result ≤ 32 }
    ensures room { 2 ≤ result }
{
    let cut = cut_before(n, scale);
    let point = write_point(scale, cut.rest, buffer);
    write_digits(cut.front, buffer, point)
}

/// Writes the canonical text of a number up to the middle of a buffer. Tells where it begins.
#[tactic(auto, unfolding(crate::specs::Texts::dec_text))]
fn write_text(value: i64, scale: u8, buffer: &mut [u8; 64]) -> usize
    requires { scale ≤ 9 }
    ensures text { drop result buffer.new ≡ dec_text scale value ++ drop 32 buffer.old }
    ensures within { result ≤ 32 }
    ensures room { 1 ≤ result }
{
    let start = write_magnitude(value.unsigned_abs(), scale, buffer);
    if value >= 0 {
        return start;
    }
    put_before(b'-', start, buffer)
}

/// Appends the canonical text of a decimal number, unless there is too little room.
#[tactic(auto, using(crate::proofs::Copies::short_room, crate::proofs::Copies::short_appended))]
pub fn write_dec(value: i64, scale: u8, out: &mut Line) -> bool
    requires { scale ≤ 9 }
    ensures room { result ≡ nat_le (length out.old + length (dec_text scale value)) 4096 }
    ensures appended { out.new ≡ (if result then out.old ++ dec_text scale value else out.old) }
{
    let mut buffer = [0; 64];
    let start = write_text(value, scale, &mut buffer);
    out.append_short(&buffer, start)
}

/// Appends a TAB and the canonical text of a decimal number, unless there is too little room for both.
#[inline(always)]
#[tactic(auto, using(crate::proofs::Short::whole_room, crate::proofs::Short::whole_appended))]
pub fn write_dec_part(value: i64, scale: u8, out: &mut Line) -> bool
    requires { scale ≤ 9 }
    ensures room { result ≡ nat_le (length out.old + length (9 ∷ dec_text scale value)) 4096 }
    ensures appended { out.new ≡ (if result then out.old ++ 9 ∷ dec_text scale value else out.old) }
{
    if scale == 0 && value >= 0 {
        return write_count_part(value.unsigned_abs(), out);
    }
    write_any_part(value, scale, out)
}

/// Appends a TAB and the canonical text of a decimal number of any sign and scale, unless there is too little room for both.
#[tactic(auto, using(crate::proofs::Copies::short_room, crate::proofs::Copies::short_appended))]
fn write_any_part(value: i64, scale: u8, out: &mut Line) -> bool
    requires { scale ≤ 9 }
    ensures room { result ≡ nat_le (length out.old + length (9 ∷ dec_text scale value)) 4096 }
    ensures appended { out.new ≡ (if result then out.old ++ 9 ∷ dec_text scale value else out.old) }
{
    let mut buffer = [0; 64];
    let text = write_text(value, scale, &mut buffer);
    let start = put_before(b'\t', text, &mut buffer);
    out.append_short(&buffer, start)
}
