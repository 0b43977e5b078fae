// The elements and the vertices' points as values, read from their slices. A place past the end reads 0.
ghost use Rattle.std.specs.Prelude.{◌≡◌, ◌*◌, ◌≤◌, ◌&&◌, nat_le};
ghost use Rattle.mesh.specs.Words.{point_at, points_of, points_in, point_in};
ghost use Rattle.mesh.specs.inside.Intake.{tet_at};

use crate::element::Tet;
use crate::words::at;
use geometry::point::Point;

// Whether n is at most 65,536 and an area with `each` words for each of n fits into m words.
pub(crate) fn fits(n: usize, each: usize, m: usize) -> bool
    requires { each ≤ 88 }
    ensures { result ≡ (nat_le n 65536 && nat_le (each * n) m) }
{
    n <= 65536 && each * n <= m
}

// The element e, four words each.
pub fn tet_at(elements: &[u32], e: usize) -> Tet
    ensures { result ≡ tet_at elements.now e }
{
    if elements.len() / 4 < e {
        return Tet::default();
    }
    let i = 4 * e;
    Tet {
        a: at(elements, i),
        b: at(elements, i + 1),
        c: at(elements, i + 2),
        d: at(elements, i + 3),
    }
}

// The point of the vertex v, three floats each.
pub fn point_at(points: &[f64], v: usize) -> Point
    ensures { result ≡ point_in points.now v }
{
    // Kept by hand: tried without this test and the zero point, `let i = 3 * v.min(points.len())`; it proves, and reading the points of
    // elements takes 1.6 times as long (12.2 for 7.7 ms, 6,553,600 points). The same in `tet_at`: 1.2 times.
    if points.len() / 3 < v {
        return Point {
            x: 0.0,
            y: 0.0,
            z: 0.0,
        };
    }
    let i = 3 * v;
    Point {
        x: at(points, i),
        y: at(points, i + 1),
        z: at(points, i + 2),
    }
}

// The points of `count` vertices, three floats each.
#[derive(Clone, Copy)]
pub struct Points<'a> {
    pub floats: &'a [f64],
    pub count: usize,
}

impl<'a> Points<'a> {
    pub fn new(floats: &'a [f64], count: usize) -> Points<'a>
        ensures { points_in result ≡ points_of count floats.now }
    {
        Points { floats, count }
    }

    // The point of the vertex v, 0 0 0 past the last.
    pub fn at(self, v: u32) -> Point
        ensures { result ≡ point_at (points_in self.entry) v }
    {
        let i = v as usize;
        if i < self.count {
            return point_at(self.floats, i);
        }
        // Kept by hand: no plainer otherwise. The floats may go on behind the last vertex, so that `point_at` is no answer here.
        Point {
            x: 0.0,
            y: 0.0,
            z: 0.0,
        }
    }
}
