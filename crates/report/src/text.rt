// The lines of the table, written into a lent slice from a place on. Each function gives the place behind what it wrote; a byte past the
// end of the slice is passed over.
// Kept by hand: no plainer; a struct of the slice and the place would hold a `&mut` and need a clause for each of its fields in every
// function, where now a call gives one place and `Written` says all of the slice. The bounds on places differ from line to line.
ghost use Rattle.std.specs.Prelude.{◌≡◌, ◌+◌, ◌<◌, ◌≤◌, ◌++◌, length, slice_set};
ghost use Rattle.std.proofs.Math.IntN.{sub_ℕ};
ghost use Rattle.report.specs.Table.{decimal, signed, space, refused_text, sizes_line, counts_line, state_line, inside_line, element_line};
ghost use Rattle.report.specs.inside.Written.{Written};

use crate::run::Changes;
use mesh::element::Tet;

// Writes a byte at a place.
fn put(out: &mut [u8], at: usize, b: u8)
    ensures { out.new ≡ slice_set out.old at b }
{
    if at < out.len() {
        out[at] = b;
    }
}

// Writes bytes.
fn put_text(out: &mut [u8], at: usize, text: &[u8]) -> usize
    requires { (at ≤ 1000000) × (length text.now ≤ 100) }
    ensures { Written out.old out.new at result text.now × (result ≤ at + 100) }
{
    for (i, &b) in text.iter().enumerate() {
        put(out, at + i, b);
    }
    at + text.len()
}

// Writes a number in decimal digits.
// Kept by hand: tried, the proof didn't close: `write!` to a slice of our own with `fmt::Write` says what it wrote only where its result is Ok,
// and nothing says that it is, so that the other branch needs the digits by hand again.
fn put_decimal(out: &mut [u8], at: usize, n: usize) -> usize
    requires { at ≤ 1000000 }
    ensures { Written out.old out.new at result (decimal n) × (result ≤ at + 20) }
{
    if n < 10 {
        put(out, at, 48 + n as u8);
        return at + 1;
    }
    let end = put_decimal(out, at, n / 10);
    put(out, end, 48 + (n % 10) as u8);
    end + 1
}

// The number plus - minus.
#[derive(Clone, Copy)]
pub(crate) struct Difference {
    pub plus: usize,
    pub minus: usize,
}

// Writes a difference, with a minus sign where it is below 0.
fn put_signed(out: &mut [u8], at: usize, n: Difference) -> usize
    requires { at ≤ 900000 }
    ensures { Written out.old out.new at result (signed (sub_ℕ n.plus n.minus)) × (result ≤ at + 21) }
{
    if n.minus <= n.plus {
        return put_decimal(out, at, n.plus - n.minus);
    }
    put(out, at, b'-');
    put_decimal(out, at + 1, n.minus - n.plus)
}

// Writes the line of a refusal.
pub(crate) fn refused_text(out: &mut [u8], n: usize) -> usize
    ensures { Written out.old out.new 0 result (refused_text n) × (result ≤ 220) }
{
    let a = put_text(out, 0, b"refused ");
    let b = put_decimal(out, a, n);
    put_text(out, b, b"\n")
}

// Writes the line of the sizes.
pub(crate) fn sizes_line(out: &mut [u8], at: usize, vertices: usize, elements: usize) -> usize
    requires { at ≤ 900000 }
    ensures { Written out.old out.new at result (sizes_line vertices elements) × (result ≤ at + 340) }
{
    let a = put_text(out, at, b"vertices ");
    let b = put_decimal(out, a, vertices);
    let c = put_text(out, b, b" elements ");
    let d = put_decimal(out, c, elements);
    put_text(out, d, b"\n")
}

// Writes the line of the three counts.
pub(crate) fn counts_line(out: &mut [u8], at: usize, n: Changes) -> usize
    requires { at ≤ 900000 }
    ensures { Written out.old out.new at result (counts_line n.collapsed n.moved n.reconnected) × (result ≤ at + 460) }
{
    let a = put_text(out, at, b"collapse ");
    let b = put_decimal(out, a, n.collapsed);
    let c = put_text(out, b, b" move ");
    let d = put_decimal(out, c, n.moved);
    let e = put_text(out, d, b" reconnect ");
    let f = put_decimal(out, e, n.reconnected);
    put_text(out, f, b"\n")
}

// Writes the line of the bad elements and of the alternating count.
pub(crate) fn state_line(out: &mut [u8], at: usize, low: usize, euler: Difference) -> usize
    requires { at ≤ 800000 }
    ensures { Written out.old out.new at result (state_line low (sub_ℕ euler.plus euler.minus)) × (result ≤ at + 341) }
{
    let a = put_text(out, at, b"low ");
    let b = put_decimal(out, a, low);
    let c = put_text(out, b, b" euler ");
    let d = put_signed(out, c, euler);
    put_text(out, d, b"\n")
}

// Writes the line of a field: its number and how many elements are inside.
pub(crate) fn inside_line(out: &mut [u8], at: usize, field: usize, count: usize) -> usize
    requires { at ≤ 900000 }
    ensures { Written out.old out.new at result (inside_line field count) × (result ≤ at + 340) }
{
    let a = put_text(out, at, b"inside ");
    let b = put_decimal(out, a, field);
    let c = put_text(out, b, b" ");
    let d = put_decimal(out, c, count);
    put_text(out, d, b"\n")
}

// Writes a vertex number with a space behind it.
fn put_corner(out: &mut [u8], at: usize, v: u32) -> usize
    requires { at ≤ 900000 }
    ensures { Written out.old out.new at result (decimal v ++ space) × (result ≤ at + 120) }
{
    let a = put_decimal(out, at, v as usize);
    put_text(out, a, b" ")
}

// Writes the line of an element.
pub(crate) fn element_line(out: &mut [u8], at: usize, t: Tet) -> usize
    requires { at ≤ 800000 }
    ensures { Written out.old out.new at result (element_line t) × (result ≤ at + 580) }
{
    let a = put_text(out, at, b"element ");
    let b = put_corner(out, a, t.a);
    let c = put_corner(out, b, t.b);
    let d = put_corner(out, c, t.c);
    let e = put_decimal(out, d, t.d as usize);
    put_text(out, e, b"\n")
}
