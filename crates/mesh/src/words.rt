// Total accessors: a read past the end is 0, a write past the end does nothing. Behind them, copies inside slices, and the words of a
// u64.
//
// Kept by hand: no plainer otherwise. `copy_over` and `clear_from` are slices' methods whose clause is the equation that callers quote;
// written out, as was tried in `set_from` and `check_boundary`, each caller's proof makes that equation again. `is_within` is shorter
// than `i.checked_add(n).is_some_and(|e| e <= m)`, which says the same.
ghost use Rattle.std.specs.Prelude.{◌≡◌, ◌+◌, ◌-◌, ◌/◌, ◌%◌, ◌^◌, ◌<◌, ◌≤◌, ◌++◌, length, take, drop, replicate, slice_index_or, slice_set};
ghost use Rattle.std.proofs.Common.{rules};
ghost use Rattle.std.proofs.Math.Seq.{paste};
ghost use Rattle.geometry.specs.Float.{zero64};
ghost use Rattle.mesh.specs.Words.{word_at, zero_words, inside, copied};

// A kind of element with a zero, which a read past the end gives.
// Kept by hand: of a type parameter's `Default` a contract cannot name the value, as that of `at` does.
pub trait Zero: Copy {
    ghost zero: { Self };

    fn zero() -> Self
        ensures { result ≡ zero };

    // A clone is the value itself, and never fails.
    ghost copies: { (x : Self) → Self.is_infallible x × ((y : Self) → Self.is_clone x y → y ≡ x) };
}

impl Zero for u32 {
    ghost zero = { 0 };

    fn zero() -> u32 {
        0
    }

    ghost copies = { Prim.search rules };
}

impl Zero for f64 {
    ghost zero = { zero64 };

    fn zero() -> f64 {
        0.0
    }

    ghost copies = { Prim.search rules };
}

// The element at i, and zero past the end.
pub fn at<T: Zero>(s: &[T], i: usize) -> T
    ensures { result ≡ slice_index_or s.now i T.zero }
{
    s.get(i).copied().unwrap_or(T::zero())
}

// Writes v at i, and nothing past the end.
pub fn put<T: Copy>(s: &mut [T], i: usize, v: T)
    ensures { s.new ≡ slice_set s.old i v }
{
    if i < s.len() {
        s[i] = v;
    }
}

// All elements zero.
pub fn zero_all<T: Zero>(s: &mut [T])
    ensures { s.new ≡ replicate (length s.old) T.zero }
{
    s.fill(T::zero());
}

// Copies the elements of a slice over those of another of its length.
// Kept by hand: `copy_from_slice` calls `memmove` of the C library, which the archives for C do not need.
fn copy<T: Copy>(to: &mut [T], from: &[T])
    requires { length to.old ≡ length from.now }
    ensures { to.new ≡ from.now }
{
    for i in 0..from.len() {
        to[i] = from[i];
    }
}

// Copies the elements of x from i on, n of them, to d from k on; nothing where x or d is too short.
#[tactic(auto, unfolding(crate::specs::Words::inside, crate::specs::Words::copied))]
pub fn copy_part<T: Copy>(x: &[T], i: usize, d: &mut [T], k: usize, n: usize)
    ensures { d.new ≡ copied x.now i d.old k n }
{
    if is_within(i, n, x.len()) && is_within(k, n, d.len()) {
        copy(&mut d[k..k + n], &x[i..i + n]);
    }
}

// Whether the n places from i on lie inside m places.
#[tactic(auto, unfolding(crate::specs::Words::inside))]
pub(crate) fn is_within(i: usize, n: usize, m: usize) -> bool
    ensures { result ≡ inside i n m }
{
    i <= m && n <= m - i
}

// Copies the n words at i to k, which is below them or past their end.
// Kept by hand: tried, and missed the bar: with `copy_within` here and slices compared in `le_rows` and `eq_rows`, `improve` took up to
// 17 % longer. Each of the three alone was not timed in `improve`.
pub(crate) fn copy_words(s: &mut [u32], i: usize, k: usize, n: usize)
    requires { (i + n ≤ length s.old) × (k + n ≤ length s.old) × (i < k → i + n ≤ k) }
    ensures { s.new ≡ paste s.old k (drop i s.old) n }
{
    for p in 0..n {
        s[k + p] = s[i + p];
    }
}

// The first n words of `from` over those of `to`.
pub(crate) fn copy_over(to: &mut [u32], from: &[u32], n: usize)
    requires { (n ≤ length to.old) × (n ≤ length from.now) }
    ensures { to.new ≡ paste to.old 0 from.now n }
{
    copy(&mut to[..n], &from[..n]);
}

// All words from a on 0.
pub(crate) fn clear_from(area: &mut [u32], a: usize)
    requires { a ≤ length area.old }
    ensures { area.new ≡ take a area.old ++ zero_words (length area.old - a) }
{
    area[a..].fill(0);
}

// The high word of x.
// Kept by hand, with `low_half`: std has no halves of a u64, and the narrowing `x as u32` asks that x fits.
pub fn high_half(x: u64) -> u32
    ensures { result ≡ x / 2 ^ 32 }
{
    (x >> 32) as u32
}

// The low word of x.
pub fn low_half(x: u64) -> u32
    ensures { result ≡ x % 2 ^ 32 }
{
    (x % 0x1_0000_0000) as u32
}
