ghost use Rattle.std.specs.Prelude.{◌≡◌, ◌≤◌, ◌<◌, ◌^◌, ℕ, Ok, decimal};
ghost use Rattle.qd_decimal.specs.Canonical.{IsCanonical};
ghost use Rattle.qd_decimal.specs.Grammar.{Parts, spelled};
ghost use Rattle.qd_decimal.specs.Numbers.{reach};
ghost use Rattle.qd_decimal.specs.Reading.{dec_of, int_of, count_of};
ghost use Rattle.qd_decimal.specs.Texts.{dec_text, distance, is_negative};
ghost use lib.IntN.{ℤ};

/// What [`crate::write_dec`] appends is read by [`crate::read_dec`] as the number, at the same scale.
pub fn dec_again()
    ensures { (scale : ℕ) (value : ℤ) → distance value ≤ reach (is_negative value) → dec_of scale (dec_text scale value) ≡ Ok value }
{}

/// What [`crate::write_dec`] appends at scale 0 is read by [`crate::read_int`] as the number.
pub fn int_again()
    ensures { (value : ℤ) → distance value ≤ reach (is_negative value) → int_of (dec_text 0 value) ≡ Ok value }
{}

/// What [`crate::write_count`] appends is read by [`crate::read_count`] as the count.
pub fn count_again()
    ensures { (most n : ℕ) → most < 2 ^ 64 → n ≤ most → count_of most (decimal n) ≡ Ok n }
{}

/// Two different numbers have different texts at a scale.
pub fn different_texts()
    ensures { (scale : ℕ) (a b : ℤ) → distance a ≤ reach (is_negative a) → distance b ≤ reach (is_negative b) → dec_text scale a ≡ dec_text scale b → a ≡ b }
{}

/// What [`crate::write_dec`] appends is canonical.
pub fn canonical()
    ensures { (scale : ℕ) (value : ℤ) → distance value ≤ reach (is_negative value) → (parts : Parts) × (dec_text scale value ≡ spelled parts) × IsCanonical value parts }
{}

/// A canonical text that is read as a number is the one that [`crate::write_dec`] appends.
pub fn one_canonical()
    ensures { (scale : ℕ) (value : ℤ) (parts : Parts) → distance value ≤ reach (is_negative value) → IsCanonical value parts → dec_of scale (spelled parts) ≡ Ok value → spelled parts ≡ dec_text scale value }
{}
