// What a pass, intake or the table asks of the points of an element or of an edge. Every other file asks it here.
ghost use Rattle.std.specs.Prelude.{◌≡◌};
ghost use Rattle.mesh.specs.Words.{points_of, points_in};
ghost use Rattle.mesh.specs.Measure.{measure, determinant_of, score_of, length_of, is_bad, measured_at, measured_of};

use crate::element::{Pair, Tet};
use crate::vertex::Points;
use geometry::point::{Point, determinant};
use geometry::score::{is_bad, score};

impl<'a> Points<'a> {
    // The length of an edge.
    pub fn edge_length(self, e: Pair) -> f64
        ensures { result ≡ length_of (points_in self.entry) e }
    {
        (self.at(e.a) - self.at(e.b)).norm()
    }

    // The determinant of an element.
    pub fn determinant(self, t: Tet) -> f64
        ensures { result ≡ determinant_of (points_in self.entry) t }
    {
        determinant(self.at(t.a), self.at(t.b), self.at(t.c), self.at(t.d))
    }

    // Whether the determinant of an element is above 0.
    pub fn is_above(self, t: Tet) -> bool
        ensures { result ≡ (measure (points_in self.entry)).above t }
    {
        0.0 < self.determinant(t)
    }

    // Whether the determinant of an element is below 0.
    pub fn is_below(self, t: Tet) -> bool
        ensures { result ≡ (measure (points_in self.entry)).below t }
    {
        self.determinant(t) < 0.0
    }

    // The score of an element.
    pub fn score(self, t: Tet) -> f64
        ensures { result ≡ score_of (points_in self.entry) t }
    {
        score(self.at(t.a), self.at(t.b), self.at(t.c), self.at(t.d))
    }

    // Whether an element is bad.
    pub fn is_bad(self, t: Tet) -> bool
        ensures { result ≡ is_bad (measure (points_in self.entry)) t }
    {
        is_bad(self.score(t))
    }

    // The score of an element whose determinant is above 0.
    pub fn measured(self, t: Tet) -> Option<f64>
        ensures { result ≡ measured_of (points_in self.entry) t }
    {
        measured_at(self.at(t.a), self.at(t.b), self.at(t.c), self.at(t.d))
    }
}

// The score of the element of four points, where its determinant is above 0.
pub fn measured_at(a: Point, b: Point, c: Point, d: Point) -> Option<f64>
    ensures { result ≡ measured_at a b c d }
{
    if 0.0 < determinant(a, b, c, d) {
        return Some(score(a, b, c, d));
    }
    None
}
