// An f64 as bits: two 32-bit words, and a number that keeps the order.
ghost use Rattle.std.specs.Prelude.{◌≡◌, to_bits};
ghost use Rattle.std.specs.Float.{binary64};
ghost use Rattle.geometry.specs.Word.{from_words, low_word, high_word};
ghost use Rattle.geometry.specs.inside.Word.{order_bits};

use std::num::{f64_from_bits_with_nan, f64_to_bits_with_nan};

// The bits of an x above 0, 0 for what is not above 0, and the largest number for a NaN: between
// values that are not negative the numbers compare as the values do.
pub fn order_bits(x: f64) -> u64
    ensures { result ≡ order_bits x }
{
    if x > 0.0 {
        x.to_bits()
    } else if x.is_nan() {
        u64::MAX
    } else {
        0
    }
}

// The f64 whose pattern has these words. Every NaN pattern is the one NaN.
// Kept by hand: no `From` takes two words.
pub fn from_words(low: u32, high: u32) -> f64
    ensures { result ≡ from_words low high }
{
    f64_from_bits_with_nan(u64::from(low) + 0x1_0000_0000 * u64::from(high))
}

// The pattern of x, for a NaN 0x7ff8_0000_0000_0000.
pub fn pattern(x: f64) -> u64
    ensures { result ≡ to_bits binary64 x }
{
    f64_to_bits_with_nan(x)
}

// The lower 32 bits of x's pattern.
// Kept by hand, with `high_word`: no plainer: std has no halves of a u64, and each half is one expression.
pub fn low_word(x: f64) -> u32
    ensures { result ≡ low_word x }
{
    (pattern(x) % 0x1_0000_0000) as u32
}

// The upper 32 bits of x's pattern.
pub fn high_word(x: f64) -> u32
    ensures { result ≡ high_word x }
{
    (pattern(x) / 0x1_0000_0000) as u32
}
