// The candidates of `smooth`: the nine points that a group may move to, and which of them are allowed.
ghost use Rattle.std.specs.Prelude.{◌≡◌, cond, ◌&&◌, map, ◌≤◌, length};
ghost use Rattle.std.specs.Float.Ieee.{eq};
ghost use Rattle.mesh.specs.Words.{point_at, points_in};
ghost use Rattle.repair.specs.Smooth.{mean, along, allowed, kept_on};
ghost use Rattle.repair.specs.Step.{regions_in};
ghost use Rattle.repair.specs.inside.smooth.Candidates.{nine, sum, divided};

use crate::project::fields::Fields;
use crate::smooth::regions::Regions;
use geometry::bounds::{Axis, Options, spacing};
use geometry::point::Point;
use mesh::intake::in_box;
use mesh::vertex::Points;

// Whether a projected candidate p is inside the box, no further than 0.5 h from the origin and, where a field is active, in a region.
pub(crate) fn allowed(o: Options, regions: Regions, origin: Point, active: Fields, p: Point) -> bool
    ensures { result ≡ allowed o regions.entry.fields.list.now (regions_in regions.entry.masks) origin active.entry.list.now p }
{
    in_box(o.bounds, p)
        && !(0.5 * spacing(o) < (p - origin).norm())
        && (active.list.is_empty() || !regions.outside_all(p))
}

// a + b, per direction.
// Kept by hand, with `divide` and `along`: no plainer, since an impl of Add, Div or Mul for `Point`, with its law, is longer than the function.
fn add(a: Point, b: Point) -> Point
    ensures { result ≡ sum a b }
{
    Point {
        x: a.x + b.x,
        y: a.y + b.y,
        z: a.z + b.z,
    }
}

// a divided by n, per direction.
fn divide(a: Point, n: usize) -> Point
    requires { n ≤ 4096 }
    ensures { result ≡ divided a n }
{
    let k = n as f64;
    Point {
        x: a.x / k,
        y: a.y / k,
        z: a.z / k,
    }
}

// The mean of the vertices of a list, whose parameters are summed left to right. At most 4,096, so that the count is exact as an f64.
pub(crate) fn mean_of(parameters: Points, near: &[u32]) -> Point
    requires { length near.now ≤ 4096 }
    ensures { result ≡ mean (map (point_at (points_in parameters.entry)) near.now) }
{
    let mut s = Point {
        x: -0.0,
        y: -0.0,
        z: -0.0,
    };
    for v in near {
        s = add(s, parameters.at(*v));
    }
    divide(s, near.len())
}

// p + alpha d, per direction.
fn along(p: Point, d: Point, alpha: f64) -> Point
    ensures { result ≡ along p d alpha }
{
    Point {
        x: p.x + alpha * d.x,
        y: p.y + alpha * d.y,
        z: p.z + alpha * d.z,
    }
}

// The nine candidates: three towards the mean, then a step of 0.15 h down and up in x, y and z.
pub(crate) fn candidates(original: Point, p: Point, mean: Point, h: f64) -> [Point; 9]
    ensures { result ≡ nine original p mean h }
{
    let to_mean = mean - original;
    let d = 0.15 * h;
    [
        along(p, to_mean, 1.0),
        along(p, to_mean, 0.5),
        along(p, to_mean, 0.25),
        Point { x: p.x - d, ..p },
        Point { x: p.x + d, ..p },
        Point { y: p.y - d, ..p },
        Point { y: p.y + d, ..p },
        Point { z: p.z - d, ..p },
        Point { z: p.z + d, ..p },
    ]
}

// hi where the old coordinate q is on a periodic hi, else p.
fn kept_value(q: f64, p: f64, hi: f64, periodic: bool) -> f64
    ensures { result ≡ cond (periodic && eq q hi) hi p }
{
    if periodic && q == hi { hi } else { p }
}

// p, but that a periodic coordinate of q on hi stays there.
pub(crate) fn kept_on(o: Options, q: Point, p: Point) -> Point
    ensures { result ≡ kept_on o q p }
{
    let hi = o.bounds.hi;
    Point {
        x: kept_value(q.x, p.x, hi.x, o.is_periodic(Axis::X)),
        y: kept_value(q.y, p.y, hi.y, o.is_periodic(Axis::Y)),
        z: kept_value(q.z, p.z, hi.z, o.is_periodic(Axis::Z)),
    }
}
