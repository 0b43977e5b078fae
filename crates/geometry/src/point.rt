// Points by value and the determinant of four. Each operation is rounded once.
ghost use Rattle.std.specs.Prelude.{◌≡◌};
ghost use Rattle.geometry.specs.Point.{difference, dot, cross, norm, determinant};

use crate::root::root;
use std::ops::Sub;

#[derive(Clone, Copy)]
pub struct Point {
    pub x: f64,
    pub y: f64,
    pub z: f64,
}

// a - b, per direction.
impl Sub for Point {
    type Output = Point;

    ghost sub_gives = { λ a b d. d ≡ difference a b };

    fn sub(self, other: Point) -> Point {
        Point {
            x: self.x - other.x,
            y: self.y - other.y,
            z: self.z - other.z,
        }
    }
}

impl Point {
    // The three products, added left to right.
    pub fn dot(self, other: Point) -> f64
        ensures { result ≡ dot self other }
    {
        self.x * other.x + self.y * other.y + self.z * other.z
    }

    // The vector product.
    pub fn cross(self, other: Point) -> Point
        ensures { result ≡ cross self other }
    {
        Point {
            x: self.y * other.z - self.z * other.y,
            y: self.z * other.x - self.x * other.z,
            z: self.x * other.y - self.y * other.x,
        }
    }

    // The length of a vector.
    #[tactic(auto, unfolding(crate::specs::Point::norm))]
    pub fn norm(self) -> f64
        ensures { result ≡ norm self }
    {
        root(self.dot(self))
    }
}

// Six times the signed volume of the element a b c d.
// Kept by hand, here, in src/score.rt and in src/measure.rt of mesh: the formulas name the four points, and a struct of them is no
// plainer: it would be made at each call and taken apart again.
#[tactic(auto, unfolding(crate::specs::Point::determinant))]
pub fn determinant(a: Point, b: Point, c: Point, d: Point) -> f64
    ensures { result ≡ determinant a b c d }
{
    (b - a).dot((c - a).cross(d - a))
}
