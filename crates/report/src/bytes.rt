// Bytes as words and floats. A byte past the end is 0.
// Kept by hand: no plainer; the functions take a place in a file of any length, which may end before it, so that no chunk is cut from it.
ghost use Rattle.std.specs.Prelude.{◌≡◌, ◌%◌, ◌^◌, ◌<◌};
ghost use Rattle.report.specs.Format.{words_a_block};
ghost use Rattle.report.specs.Bytes.{byte_at, word_in, float_in, point_from, sum_of};

use crate::format::WORDS_A_BLOCK;
use geometry::point::Point;
use geometry::word::from_words;

// The byte at i.
fn byte(s: &[u8], i: usize) -> u8
    ensures { result ≡ byte_at s.now i }
{
    s.get(i).copied().unwrap_or(0)
}

// The word i, its lowest byte first.
pub(crate) fn word(s: &[u8], i: usize) -> u32
    requires { i < 1000000 }
    ensures { result ≡ word_in s.now i }
{
    let p = 4 * i;
    u32::from_le_bytes([byte(s, p), byte(s, p + 1), byte(s, p + 2), byte(s, p + 3)])
}

// The f64 in the words i and i + 1.
pub(crate) fn float(s: &[u8], i: usize) -> f64
    requires { i < 900000 }
    ensures { result ≡ float_in s.now i }
{
    from_words(word(s, i), word(s, i + 1))
}

// The three f64 from the word i on.
pub(crate) fn point(s: &[u8], i: usize) -> Point
    requires { i < 800000 }
    ensures { result ≡ point_from s.now i }
{
    Point {
        x: float(s, i),
        y: float(s, i + 2),
        z: float(s, i + 4),
    }
}

// The sum of a block's words, from the word i on, modulo 2^32.
pub(crate) fn sum(s: &[u8], i: usize) -> u32
    requires { i < 900000 }
    ensures { result ≡ sum_of s.now i words_a_block % 2 ^ 32 }
{
    let mut total: u32 = 0;
    for n in 0..WORDS_A_BLOCK {
        total = total.wrapping_add(word(s, i + n));
    }
    total
}
