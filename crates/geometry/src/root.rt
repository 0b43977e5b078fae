// The square root of an `f64`, correctly rounded, for every `f64`: `sqrt` of specs/Root.antt, which is
// IEEE 754's squareRoot. For a number above 0 a guess by floats is tested exactly by whole numbers, and
// where it fails, about once in 500, the digits are worked out one by one.
//
// Kept by hand: a rule of the project has the root worked out by the program and proved against IEEE 754's definition
// (docs/SENTENCES.md, docs/DECISIONS.md). `f64::sqrt` is the processor's own operation, which no program works out.
ghost use Rattle.std.specs.Prelude.{◌≡◌, ◌+◌, ◌*◌, ◌^◌, ◌<◌, ◌≤◌, IfSome};
ghost use Rattle.geometry.specs.Root.{number, root_of, sqrt};
ghost use Rattle.geometry.specs.inside.Whole.{NearRoot, Halved};

use std::num::wrapping_sub_u64;

// The bits of a number above 0 that is finite. A guess is made of them.
#[derive(Clone, Copy)]
struct Bits {
    pattern: u64,
    ghost finite: { pattern < 2047 * 2 ^ 52 },
}

// The whole root of y * 2 ^ 53, cut: 54 binary digits, one a turn. s is twice the root so far, and
// r = 2 ^ k the weight of the digit that is tried.
fn root_digits(y: u64) -> u64
    requires { y < 2 ^ 55 }
    ensures { (result * result ≤ y * 2 ^ 53) × (y * 2 ^ 53 < (result + 1) * (result + 1)) }
{
    let mut rest = y;
    let mut s: u64 = 0;
    for k in (0..54_u32).rev() {
        let r = 1_u64 << k;
        let t = s + r;
        if t <= rest {
            rest -= t;
            s = t + r;
        }
        rest *= 2;
    }
    s / 2
}

// A guess at 1 / root x, for the x with these bits. Halving the bits halves the exponent, so that y is
// within 4 % of it; the sum is a polynomial near to 1 / root p, for p from 0.93 to 1.07, within 2 ^ -34
// and from below. The contract says nothing of it: `settled` tells.
fn inverse(bits: Bits) -> f64 {
    let x = f64::from_bits(bits.pattern);
    let y = f64::from_bits(0x5fe6_eb50_c7b5_37a9 - bits.pattern / 2);
    let p = x * y * y;
    let p2 = p * p;
    let low = (2.935009859245964 - 5.877883198310632 * p)
        + (8.825195001680699 - 8.409649210002044 * p) * p2;
    let high = (4.906461721076635 - 1.6053989806049038 * p) + 0.22626480689144277 * p2;
    y * (low + high * (p2 * p2))
}

// The whole number nearest to the root of y * 2 ^ 51, by a guess and an exact test, if the guess is it. z is a guess at the inverse of the root, with 32 digits. The root's 32 leading digits are t,
// which leave `rest` of y, and those below are d.
fn settled(y: u64, z: u64) -> Option<u64>
    requires { (2 ^ 53 ≤ y) × (y < 2 ^ 55) × (z < 2 ^ 32) }
    ensures { IfSome result (NearRoot y) }
{
    let n = y * 512;
    let t = n / 0x1_0000_0000 * z / 0x8000_0000 % 0x1_0000_0000;
    let rest = wrapping_sub_u64(n, t * t);
    if rest >= 0x8_0000_0000 {
        return None;
    }
    // rounded, with a little more than a half for what z is below
    let d = (rest / 16 * z + 0x40_a000_0000) / 0x80_0000_0000;
    // what d leaves of `rest`, with 2 ^ 34 added
    let left = wrapping_sub_u64(rest * 0x10_0000 + 0x4_0000_0000, t * d);
    if left >= 0x8_0000_0000 {
        return None;
    }
    // y * 2 ^ 51 - q * q is v - w
    let q = t * 0x20_0000 + d;
    let v = left * 0x40_0000;
    let w = d * d + 0x100_0000_0000_0000;
    if w < v + q && v <= w + q {
        Some(q)
    } else {
        None
    }
}

// The root of m * 2 ^ (52 + p) to the nearest, by a guess if it settles and digit by digit if not. `bits`
// leads only to the guess: a positive number with the digits of m and a field that is odd where p is 0.
fn near_root(m: u64, p: u64, bits: Bits) -> u64
    requires { (2 ^ 52 ≤ m) × (m < 2 ^ 53) × (p < 2) }
    ensures { Halved (m * 2 ^ (1 + p)) result }
{
    let y = m << (1 + p);
    let z = inverse(bits);
    if z > 0.0 {
        let digits = z.to_bits() / 0x20_0000 % 0x8000_0000 + 0x8000_0000;
        if let Some(q) = settled(y, digits) {
            return q;
        }
    }
    (root_digits(y) + 1) / 2
}

// The root of m * 2 ^ a / 2 ^ 2148, rounded. `bits` leads only to a guess, as in `near_root`.
fn root_of_parts(m: u64, a: u64, bits: Bits) -> f64
    requires { (2 ^ 52 ≤ m) × (m < 2 ^ 53) × (1022 ≤ a) × (a < 3120) }
    ensures { result ≡ root_of (number (m * 2 ^ a)) }
{
    let q = near_root(m, a % 2, bits);
    f64::from_bits((a - 52) / 2 * 0x10_0000_0000_0000 + q)
}

// IEEE 754's squareRoot.
pub fn root(x: f64) -> f64
    ensures { result ≡ sqrt x }
{
    if x > 0.0 {
        let bits = x.to_bits();
        let field = bits / 0x10_0000_0000_0000;
        let digits = bits % 0x10_0000_0000_0000;
        if field == 2047 {
            return x;
        }
        if field > 0 {
            return root_of_parts(
                digits + 0x10_0000_0000_0000,
                field + 1073,
                Bits { pattern: bits },
            );
        }
        // subnormal
        let shift = (digits.leading_zeros() as u64) - 11;
        let m = digits << shift;
        let a = 1074 - shift;
        let pattern = m + a % 2 * 0x10_0000_0000_0000;
        return root_of_parts(m, a, Bits { pattern });
    }
    if x == 0.0 {
        return x;
    }
    f64::NAN
}
