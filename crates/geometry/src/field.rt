// Fields: their kind, value and gradient at a point.
ghost use Rattle.std.specs.Prelude.{◌≡◌};
ghost use Rattle.geometry.specs.Field.{kind, number_of, NumberOf, value, gradient, magnitude};

use crate::point::Point;

// Level(c), Plane(n, d), Ball(c, r).
#[derive(Clone, Copy)]
pub enum Field {
    Level(f64),
    Plane(Point, f64),
    Ball(Point, f64),
}

// The kinds of fields.
#[derive(Clone, Copy, PartialEq, Eq, Debug)]
pub enum Kind {
    Level = 0,
    Plane = 1,
    Ball = 2,
}

// A number that no kind has.
#[derive(Clone, Copy, PartialEq, Eq, Debug)]
pub struct UnknownKind(pub u32);

impl From<Kind> for u32 {
    ghost from_gives = { λ kind n. n ≡ number_of kind };

    fn from(kind: Kind) -> u32 {
        kind as u32
    }
}

// Kept by hand: std makes no enum of a number.
impl TryFrom<u32> for Kind {
    type Error = UnknownKind;

    ghost try_from_gives = { NumberOf };

    fn try_from(n: u32) -> Result<Kind, UnknownKind> {
        match n {
            0 => Ok(Kind::Level),
            1 => Ok(Kind::Plane),
            2 => Ok(Kind::Ball),
            _ => Err(UnknownKind(n)),
        }
    }
}

impl Field {
    pub fn kind(self) -> Kind
        ensures { number_of result ≡ kind self }
    {
        match self {
            Field::Level(_) => Kind::Level,
            Field::Plane(_, _) => Kind::Plane,
            Field::Ball(_, _) => Kind::Ball,
        }
    }
}

// The field's value at p.
// Kept by hand, with `gradient`: no plainer as methods: each is as much of the point as of the field.
pub fn value(f: Field, p: Point) -> f64
    ensures { result ≡ value f p }
{
    match f {
        Field::Level(c) => p.z - c,
        Field::Plane(n, d) => n.dot(p) + d,
        Field::Ball(c, r) => {
            let e = p - c;
            e.dot(e) - r * r
        }
    }
}

// The field's gradient at p.
pub fn gradient(f: Field, p: Point) -> Point
    ensures { result ≡ gradient f p }
{
    match f {
        Field::Level(_) => Point {
            x: 0.0,
            y: 0.0,
            z: 1.0,
        },
        Field::Plane(n, _) => n,
        Field::Ball(c, _) => {
            let e = p - c;
            Point {
                x: 2.0 * e.x,
                y: 2.0 * e.y,
                z: 2.0 * e.z,
            }
        }
    }
}

// The root of g's dot product with itself.
#[tactic(auto, unfolding(crate::specs::Point::norm))]
pub fn magnitude(g: Point) -> f64
    ensures { result ≡ magnitude g }
{
    g.norm()
}
