// How many elements are bad, and how many are inside a field.
ghost use Rattle.std.specs.Prelude.{◌≡◌, ◌≤◌};
ghost use Rattle.mesh.specs.Words.{points_in};
ghost use Rattle.report.specs.Table.{mean, place_of, is_inside, inside_count, low_count};
ghost use Rattle.mesh.specs.inside.Intake.{tet_at};
ghost use Rattle.report.specs.inside.Meshes.{elements_in};

use crate::counted::Mesh;
use geometry::field::{Field, value};
use geometry::point::Point;
use mesh::element::Tet;
use mesh::vertex::tet_at;

// The mean of four points: per direction the sum left to right, then divided by 4.
fn mean(a: Point, b: Point, c: Point, d: Point) -> Point
    ensures { result ≡ mean a b c d }
{
    Point {
        x: (a.x + b.x + c.x + d.x) / 4.0,
        y: (a.y + b.y + c.y + d.y) / 4.0,
        z: (a.z + b.z + c.z + d.z) / 4.0,
    }
}

impl<'a> Mesh<'a> {
    // The element i.
    pub fn element(self, i: usize) -> Tet
        ensures { result ≡ tet_at self.entry.elements.now i }
    {
        tet_at(self.elements, i)
    }

    // The place looked at: the mean of an element's four points, in the order of its vertices.
    fn place_of(self, t: Tet) -> Point
        ensures { result ≡ place_of (points_in self.entry.points) t }
    {
        let p = self.points;
        mean(p.at(t.a), p.at(t.b), p.at(t.c), p.at(t.d))
    }

    // Whether an element is inside a field.
    fn is_inside(self, f: Field, t: Tet) -> bool
        ensures { result ≡ is_inside (points_in self.entry.points) f t }
    {
        value(f, self.place_of(t)) <= 0.0
    }

    // How many elements are inside a field.
    pub fn inside_count(self, f: Field) -> usize
        ensures { (result ≡ inside_count (points_in self.entry.points) (elements_in self.entry) f) × (result ≤ self.entry.count) }
    {
        (0..self.count)
            .filter(|&i| self.is_inside(f, self.element(i)))
            .count()
    }

    // How many elements are bad.
    pub fn low_count(self) -> usize
        ensures { (result ≡ low_count (points_in self.entry.points) (elements_in self.entry)) × (result ≤ self.entry.count) }
    {
        (0..self.count)
            .filter(|&i| self.points.is_bad(self.element(i)))
            .count()
    }
}
