// `project_candidate`: a candidate moved onto the active fields.
mod field_rows;
pub(crate) mod fields;
mod finite;
mod locked;
mod matrix;
mod rows;

ghost use Rattle.std.specs.Prelude.{◌≤◌, ◌≡◌, List, length, take};
ghost use Rattle.geometry.specs.declared.bounds.Bounds.{Bounds};
ghost use Rattle.geometry.specs.declared.field.Field.{Field};
ghost use Rattle.geometry.specs.declared.point.Point.{Point};
ghost use Rattle.geometry.specs.Float.{◌*₆₄◌};
ghost use Rattle.geometry.specs.Literals.{e_12};
ghost use Rattle.repair.specs.Project.{locked_of, extent, matrix, solved, onward_from, onward, steps, project};
ghost use Rattle.repair.specs.inside.project.Solve.{locks, rows_of, step_of};

use crate::project::fields::Fields;
use crate::project::finite::is_finite_point;
use crate::project::locked::{Locked, extent};
use crate::project::matrix::Matrix;
use crate::project::rows::Rows;
use geometry::bounds::Bounds;
use geometry::field::Field;
use geometry::point::Point;

// p moved by the solution of the rows, in the directions that are not locked; nothing where there is none or it is not finite.
fn onward(l: Locked, rows: Rows, p: Point) -> Option<Point>
    ensures { (b : Bounds) (o : Point) (fs : List Field) → locks l ≡ locked_of b o → step_of result ≡ onward_from b o fs p (rows_of rows.entry.list.now) (solved 0 (length (rows_of rows.entry.list.now)) (matrix (rows_of rows.entry.list.now))) }
{
    let m = Matrix::of(rows).solved()?;
    let d = m.displacement(rows);
    let q = l.held(p, p - d);
    if !is_finite_point(q) {
        return None;
    }
    Some(q)
}

// At most 12 steps from p.
fn steps(l: Locked, tolerance: f64, active: Fields, p: Point) -> Option<Point>
    ensures { (b : Bounds) (o : Point) → locks l ≡ locked_of b o → tolerance ≡ e_12 *₆₄ extent b → result ≡ steps b o active.entry.list.now 12 (onward p) }
{
    let n = active.list.len();
    let mut at = p;
    for _ in 0..12_usize {
        if active.all_zero(at) {
            return Some(at);
        }
        let found = active.rows_at(at)?;
        let rows = Rows { list: &found[..n] };
        if rows.all_near(tolerance) {
            return Some(at);
        }
        let freed = rows.free(l);
        at = onward(l, Rows { list: &freed[..n] }, at)?;
    }
    None
}

// The candidate, set back to the origin in the locked directions, after at most 12 steps.
pub(crate) fn project(b: Bounds, origin: Point, active: Fields, candidate: Point) -> Option<Point>
    ensures { result ≡ project b origin active.entry.list.now candidate }
{
    let l = Locked::at(b, origin);
    let tolerance = 1e-12 * extent(b);
    steps(l, tolerance, active, l.held(origin, candidate))
}

// The same for the first `count` fields; a count over 8 counts as 8.
// Kept by hand: the C interface lends eight fields and a count.
pub fn project_candidate(
    b: Bounds,
    origin: Point,
    active: [Field; 8],
    count: usize,
    candidate: Point,
) -> Option<Point>
    ensures { result ≡ project b origin (take count active) candidate }
{
    project(b, origin, Fields::first(&active, count), candidate)
}
