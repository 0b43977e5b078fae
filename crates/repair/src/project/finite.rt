// Small operations on an f64: the larger of two, the test of a point for finite coordinates, the order of sizes.
ghost use Rattle.std.specs.Prelude.{◌≡◌};
ghost use Rattle.geometry.specs.Float.{larger};
ghost use Rattle.repair.specs.Project.{finite_point, smaller_size};

use geometry::float::absolute;
use geometry::point::Point;

// The larger of a and b, and a where b is a NaN.
// `f64::max` is another function: it gives b where a is a NaN.
pub(crate) fn larger(a: f64, b: f64) -> f64
    ensures { result ≡ larger a b }
{
    if a < b { b } else { a }
}

// Whether no coordinate is a NaN or an infinity.
#[tactic(auto, using(crate::proofs::Laws::Project::Floats::finite_test))]
pub(crate) fn is_finite_point(p: Point) -> bool
    ensures { result ≡ finite_point p }
{
    p.x.is_finite() && p.y.is_finite() && p.z.is_finite()
}

// Whether |x| is below |y|, a NaN being the largest.
pub(crate) fn is_smaller(x: f64, y: f64) -> bool
    ensures { result ≡ smaller_size x y }
{
    (y.is_nan() && !x.is_nan()) || absolute(x) < absolute(y)
}
