// Fields at a point: the value and the gradient of each, both divided by the gradient's magnitude.
ghost use Rattle.std.specs.Prelude.{◌≤◌, ◌≡◌, true, false, not, ◌&&◌, map, length, take, MatchOption};
ghost use Rattle.std.specs.Float.Ieee.{eq, lt};
ghost use Rattle.geometry.specs.Float.{zero64, absolute};
ghost use Rattle.geometry.specs.Field.{value};
ghost use Rattle.mesh.specs.Tests.{every};
ghost use Rattle.repair.specs.Project.{finite, usable, normalised, freed};
ghost use Rattle.repair.specs.inside.project.Solve.{locks, row_of, rows_of};

use crate::project::fields::Fields;
use crate::project::locked::Locked;
use crate::project::rows::{Row, Rows};
use geometry::field::{Field, gradient, magnitude, value};
use geometry::float::absolute;
use geometry::point::Point;

// Whether a magnitude m and a value v are usable: both finite, and the magnitude not 0.
#[tactic(auto, using(crate::proofs::Laws::Project::Floats::finite_test))]
fn is_usable(m: f64, v: f64) -> bool
    ensures { result ≡ (finite m && (not (eq m zero64) && finite v)) }
{
    m.is_finite() && m != 0.0 && v.is_finite()
}

// The row of a field at p, if it is usable.
fn row_at(f: Field, p: Point) -> Option<Row>
    ensures { MatchOption result (usable p f ≡ false) (λ r. (usable p f ≡ true) × (row_of r ≡ normalised p f)) }
{
    let g = gradient(f, p);
    let m = magnitude(g);
    let v = value(f, p);
    if !is_usable(m, v) {
        return None;
    }
    Some(Row {
        value: v / m,
        gradient: Point {
            x: g.x / m,
            y: g.y / m,
            z: g.z / m,
        },
    })
}

// The vector 0.
const ZERO: Point = Point {
    x: 0.0,
    y: 0.0,
    z: 0.0,
};

// A row of zeros.
const NO_ROW: Row = Row {
    value: 0.0,
    gradient: ZERO,
};

impl<'a> Fields<'a> {
    // Whether all fields are 0 at p.
    pub(crate) fn all_zero(self, p: Point) -> bool
        ensures { result ≡ every (λ f. eq (value f p) zero64) self.entry.list.now }
    {
        self.list.iter().all(|f| value(*f, p) == 0.0)
    }

    // The rows of the fields at p, at the front of eight; nothing where one is not usable.
    // Kept by hand, here and in `free`: an array of eight, no plainer: `ArrayVec` fills its room with default values, and a
    // row has none.
    pub(crate) fn rows_at(self, p: Point) -> Option<[Row; 8]>
        ensures { MatchOption result (every (usable p) self.entry.list.now ≡ false)
            (λ rows. (every (usable p) self.entry.list.now ≡ true) × (length rows ≡ 8) × (rows_of (take (length self.entry.list.now) rows) ≡ map (normalised p) self.entry.list.now)) }
    {
        let mut rows = [NO_ROW; 8];
        for (i, f) in self.list.iter().enumerate() {
            rows[i] = row_at(*f, p)?;
        }
        Some(rows)
    }
}

// The row with 0 for the locked parts of its gradient.
fn free_row(l: Locked, r: Row) -> Row
    ensures { row_of result ≡ freed (locks l) (row_of r) }
{
    Row {
        value: r.value,
        gradient: l.held(ZERO, r.gradient),
    }
}

impl<'a> Rows<'a> {
    // Whether the values of the rows are all below the tolerance in size.
    pub(crate) fn all_near(self, tolerance: f64) -> bool
        ensures { result ≡ every (λ r. lt (absolute r.value) tolerance) (rows_of self.entry.list.now) }
    {
        self.list.iter().all(|r| absolute(r.value) < tolerance)
    }

    // Each row with 0 for the locked parts of its gradient, at the front of eight.
    pub(crate) fn free(self, l: Locked) -> [Row; 8]
        ensures { rows_of (take (length self.entry.list.now) result) ≡ map (freed (locks l)) (rows_of self.entry.list.now) }
    {
        let mut out = [NO_ROW; 8];
        for (i, r) in self.list.iter().enumerate() {
            out[i] = free_row(l, *r);
        }
        out
    }
}
