// Functions for programs in other languages to call, for comparison and measurement. Numbers pass as
// themselves, an array as a pointer to its first number. A box is lo and hi per direction: x, y, z.
// Kept by hand: the C interface. `h_field_value` and `h_field_gradient` take a kind as a number, `h_rank` a flag, `h_field_gradient` and
// `along` a direction from 0; `h_nonmanifold` gives 1 or 0.
#![tactic(auto)]

pub mod passes;

ghost use Rattle.std.specs.Prelude.{◌≡◌, ◌<◌, ◌*◌, ◌%◌, ◌/◌, length, eqb};
ghost use Rattle.geometry.specs.Root.{sqrt};
ghost use Rattle.geometry.specs.Point.{norm, determinant};
ghost use Rattle.geometry.specs.Score.{squared_edges, score};
ghost use Rattle.geometry.specs.Bounds.{spacing, canonical_value, cap};
ghost use Rattle.geometry.specs.Rank.{rank_value};
ghost use Rattle.geometry.specs.Field.{value, gradient};
ghost use Rattle.mesh.specs.Manifold.{nonmanifold_in};
ghost use Rattle.mesh.specs.Words.{copied};
ghost use Rattle.halmafir.specs.Arrays.{point_of, bounds_of, field_of};
ghost use Rattle.export.specs.Answers.{along, as_number};

use geometry::bounds::{Cells, Options, Span};
use geometry::point::Point;
use halmafir::arrays::{bounds_of, field_of};

#[unsafe(no_mangle)]
pub extern "C" fn h_root(x: f64) -> f64
    ensures { result ≡ sqrt x }
{
    geometry::root::root(x)
}

fn point(p: &[f64; 12], i: usize) -> Point
    requires { i < 10 }
    ensures { result ≡ point_of p.now i }
{
    Point {
        x: p[i],
        y: p[i + 1],
        z: p[i + 2],
    }
}

// The point of three numbers.
pub(crate) fn point_in(p: &[f64; 3]) -> Point
    ensures { result ≡ point_of p.now 0 }
{
    Point {
        x: p[0],
        y: p[1],
        z: p[2],
    }
}

#[unsafe(no_mangle)]
pub extern "C" fn h_determinant(p: &[f64; 12]) -> f64
    ensures { result ≡ determinant (point_of p.now 0) (point_of p.now 3) (point_of p.now 6) (point_of p.now 9) }
{
    geometry::point::determinant(point(p, 0), point(p, 3), point(p, 6), point(p, 9))
}

#[unsafe(no_mangle)]
pub extern "C" fn h_squared_edges(p: &[f64; 12]) -> f64
    ensures { result ≡ squared_edges (point_of p.now 0) (point_of p.now 3) (point_of p.now 6) (point_of p.now 9) }
{
    geometry::score::squared_edges(point(p, 0), point(p, 3), point(p, 6), point(p, 9))
}

#[unsafe(no_mangle)]
pub extern "C" fn h_score(p: &[f64; 12]) -> f64
    ensures { result ≡ score (point_of p.now 0) (point_of p.now 3) (point_of p.now 6) (point_of p.now 9) }
{
    geometry::score::score(point(p, 0), point(p, 3), point(p, 6), point(p, 9))
}

#[unsafe(no_mangle)]
pub extern "C" fn h_norm(p: &[f64; 3]) -> f64
    ensures { result ≡ norm (point_of p.now 0) }
{
    point_in(p).norm()
}

#[unsafe(no_mangle)]
pub extern "C" fn h_spacing(b: &[f64; 6], x: u32, y: u32, z: u32) -> f64
    ensures { result ≡ spacing (record { bounds = bounds_of b.now; cells = record { x = x; y = y; z = z }; periodic = 0; passes = 0 }) }
{
    geometry::bounds::spacing(Options {
        bounds: bounds_of(b),
        cells: Cells { x, y, z },
        periodic: 0,
        passes: 0,
    })
}

#[unsafe(no_mangle)]
pub extern "C" fn h_rank(value: f64, lo: f64, hi: f64, periodic: u32) -> u64
    ensures { result ≡ rank_value (canonical_value value lo hi (eqb (periodic % 2) 1)) lo hi }
{
    let span = Span { lo, hi };
    let v = span.canonical_value(value, periodic % 2 == 1);
    span.rank_value(v)
}

#[unsafe(no_mangle)]
pub extern "C" fn h_cap(b: &[f64; 6], p: &[f64; 3]) -> u64
    ensures { result ≡ cap (point_of p.now 0) (bounds_of b.now) }
{
    geometry::bounds::cap(point_in(p), bounds_of(b))
}

#[unsafe(no_mangle)]
pub extern "C" fn h_field_value(kind: u32, f: &[f64; 4], p: &[f64; 3]) -> f64
    ensures { result ≡ value (field_of kind f.now) (point_of p.now 0) }
{
    geometry::field::value(field_of(kind, f), point_in(p))
}

// The part in direction 0, 1, or 2 from there on.
fn along(g: Point, axis: u32) -> f64
    ensures { result ≡ along g axis }
{
    if axis == 0 {
        return g.x;
    }
    if axis == 1 {
        return g.y;
    }
    g.z
}

#[unsafe(no_mangle)]
pub extern "C" fn h_field_gradient(kind: u32, f: &[f64; 4], p: &[f64; 3], axis: u32) -> f64
    ensures { result ≡ along (gradient (field_of kind f.now) (point_of p.now 0)) axis }
{
    along(
        geometry::field::gradient(field_of(kind, f), point_in(p)),
        axis,
    )
}

// 1 where a surface of as many triples as the slice holds has a nonmanifold vertex, or where the work is
// too small, else 0. The number of vertices is not needed.
#[unsafe(no_mangle)]
pub extern "C" fn h_nonmanifold(surface: &[u32], _vertices: u32, work: &mut [u32]) -> u32
    ensures { (result ≡ as_number (nonmanifold_in (length surface.now / 3) (copied surface.now 0 work.old 0 (3 * (length surface.now / 3)))).answer)
        × (work.new ≡ (nonmanifold_in (length surface.now / 3) (copied surface.now 0 work.old 0 (3 * (length surface.now / 3)))).area) }
{
    let n = surface.len() / 3;
    mesh::words::copy_part(surface, 0, work, 0, 3 * n);
    u32::from(mesh::manifold::nonmanifold_in(work, n))
}
