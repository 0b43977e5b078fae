// Directions in which a point must stay: those in which it lies on the box.
ghost use Rattle.std.specs.Prelude.{◌≡◌, cond, ◌||◌};
ghost use Rattle.std.specs.Float.Ieee.{eq};
ghost use Rattle.repair.specs.Project.{locked_of, held, extent};
ghost use Rattle.repair.specs.inside.project.Solve.{locks};

use crate::project::finite::larger;
use geometry::bounds::Bounds;
use geometry::point::Point;

// Whether v is lo or hi.
fn is_end(v: f64, lo: f64, hi: f64) -> bool
    ensures { result ≡ (eq v lo || eq v hi) }
{
    v == lo || v == hi
}

// a where locked, else b.
fn choose(locked: bool, a: f64, b: f64) -> f64
    ensures { result ≡ cond locked a b }
{
    if locked { a } else { b }
}

// Whether x, y and z are locked.
#[derive(Clone, Copy)]
pub(crate) struct Locked {
    pub x: bool,
    pub y: bool,
    pub z: bool,
}

impl Locked {
    // The directions in which p lies on lo or hi.
    pub(crate) fn at(b: Bounds, p: Point) -> Locked
        ensures { locks result ≡ locked_of b p }
    {
        let lo = b.lo;
        let hi = b.hi;
        Locked {
            x: is_end(p.x, lo.x, hi.x),
            y: is_end(p.y, lo.y, hi.y),
            z: is_end(p.z, lo.z, hi.z),
        }
    }

    // p in the locked directions, q in the others.
    pub(crate) fn held(self, p: Point, q: Point) -> Point
        ensures { result ≡ held (locks self) p q }
    {
        Point {
            x: choose(self.x, p.x, q.x),
            y: choose(self.y, p.y, q.y),
            z: choose(self.z, p.z, q.z),
        }
    }
}

// The largest hi - lo.
pub(crate) fn extent(b: Bounds) -> f64
    ensures { result ≡ extent b }
{
    let lo = b.lo;
    let hi = b.hi;
    let x = larger(0.0, hi.x - lo.x);
    let y = larger(x, hi.y - lo.y);
    larger(y, hi.z - lo.z)
}
