// The matrix of active fields. It is solved column by column, the pivot's row divided by the pivot and the other rows cleared.
ghost use Rattle.std.specs.Prelude.{◌+◌, ◌-◌, ◌≤◌, ◌<◌, ◌≡◌, not, cond, ◌&&◌, eqb, List, [], length, take, get_or, MatchOption, None, Some};
ghost use Rattle.std.specs.Float.Ieee.{lt};
ghost use Rattle.geometry.specs.Float.{zero64, absolute};
ghost use Rattle.geometry.specs.Literals.{64epsilon};
ghost use Rattle.repair.specs.Project.{finite, entry, matrix, pivot, divide_from, less_from, cleared, solved_at, solved};
ghost use Rattle.repair.specs.inside.project.Solve.{row_of, rows_of, Shaped, window, entries, cleared_at, scaled_on, displacement};

use crate::project::finite::is_smaller;
use crate::project::rows::{Row, Rows};
use geometry::float::absolute;
use geometry::point::Point;

// The products of a row's gradient with those of the rows, then its value.
fn matrix_row(a: Row, rows: Rows) -> [f64; 9]
    ensures { take (length rows.entry.list.now + 1) result ≡ entries (rows_of rows.entry.list.now) (row_of a) }
{
    let mut out = [0.0; 9];
    for (j, b) in rows.list.iter().enumerate() {
        out[j] = a.gradient.dot(b.gradient);
    }
    out[rows.list.len()] = a.value;
    out
}

// Whether d is finite and not below 64 epsilon in size.
#[tactic(auto, using(crate::proofs::Laws::Project::Floats::finite_test))]
fn is_pivot(d: f64) -> bool
    ensures { result ≡ (finite d && not (lt (absolute d) 64epsilon)) }
{
    d.is_finite() && !(absolute(d) < 1.4210854715202004e-14)
}

// s with g times t added, per direction.
// Kept by hand: no plainer, since impls of Add and Mul for `Point`, with their laws, are longer than a function that is used once.
fn add_scaled(s: Point, g: Point, t: f64) -> Point
    ensures { result ≡ scaled_on s g t }
{
    Point {
        x: s.x + g.x * t,
        y: s.y + g.y * t,
        z: s.z + g.z * t,
    }
}

// `size` rows of `size` + 1 columns, in the corner of 8 rows of 9.
// Kept by hand: no heap is used, so the size stands beside an array of the largest size.
#[derive(Drop)]
pub(crate) struct Matrix {
    rows: [[f64; 9]; 8],
    size: usize,
    ghost few: { size ≤ 8 },
    ghost shaped: { Shaped rows },
}

// Kept by hand: a column's or a row's number below the size is asked where it is given. A type for it is no plainer: the bound is this
// matrix's size, which another type cannot name.
impl Matrix {
    // The matrix of the rows.
    pub(crate) fn of(rows: Rows) -> Matrix
        ensures { (result.size ≡ length rows.entry.list.now) × (window result.size result.rows ≡ matrix (rows_of rows.entry.list.now)) }
    {
        let mut m = [[0.0; 9]; 8];
        for (i, a) in rows.list.iter().enumerate() {
            m[i] = matrix_row(*a, rows);
        }
        Matrix {
            rows: m,
            size: rows.list.len(),
        }
    }

    // The row of column k's pivot: of the rows from k on the last with the largest size there.
    fn pivot(&self, k: usize) -> usize
        requires { k < self.now.size }
        ensures { (result < self.now.size) × (result ≡ pivot (window self.now.size self.now.rows) k k (k + 1) (self.now.size - (k + 1))) }
    {
        let mut best = k;
        for i in k + 1..self.size {
            if !is_smaller(self.rows[i][k], self.rows[best][k]) {
                best = i;
            }
        }
        best
    }

    // Row k, its columns from k on divided by its entry in column k.
    fn divided(&self, k: usize) -> [f64; 9]
        requires { k < self.now.size }
        ensures { take (self.now.size + 1) result ≡ divide_from k (entry (window self.now.size self.now.rows) k k) (take (self.now.size + 1) (get_or self.now.rows k [])) }
    {
        let mut row = self.rows[k];
        let d = row[k];
        for j in k..self.size + 1 {
            row[j] /= d;
        }
        row
    }

    // Row i, its columns from k on less its entry in column k times the pivot's row; row k, which is the pivot's, as it is.
    fn cleared(&self, pivot: [f64; 9], i: usize, k: usize) -> [f64; 9]
        requires { (k < self.now.size) × (i < self.now.size) }
        ensures { take (self.now.size + 1) result ≡ cleared_at k i (take (self.now.size + 1) pivot) (take (self.now.size + 1) (get_or self.now.rows i [])) }
    {
        let mut row = self.rows[i];
        if i == k {
            return row;
        }
        let factor = row[k];
        for j in k..self.size + 1 {
            row[j] -= factor * pivot[j];
        }
        row
    }

    // Clears column k in all rows but row k, which is `pivot`.
    fn clear(&mut self, pivot: [f64; 9], k: usize)
        requires { k < self.old.size }
        ensures { (self.new.size ≡ self.old.size) × (window self.new.size self.new.rows ≡ cleared k 0 (take (self.old.size + 1) pivot) (window self.old.size self.old.rows)) }
    {
        for i in 0..self.size {
            self.rows[i] = self.cleared(pivot, i, k);
        }
    }

    // Solves column k, its pivot in place.
    fn solve_column(&mut self, k: usize)
        requires { k < self.old.size }
        ensures { (self.new.size ≡ self.old.size) × (window self.new.size self.new.rows ≡ solved_at k (window self.old.size self.old.rows)) }
    {
        let pivot = self.divided(k);
        self.rows[k] = pivot;
        self.clear(pivot, k);
    }

    // The matrix with all columns solved, if all pivots serve.
    pub(crate) fn solved(self) -> Option<Matrix>
        ensures { MatchOption result (solved 0 self.size (window self.size self.rows) ≡ None) (λ m. (m.size ≡ self.size) × (solved 0 self.size (window self.size self.rows) ≡ Some (window m.size m.rows))) }
    {
        let mut m = self;
        for k in 0..m.size {
            let best = m.pivot(k);
            m.rows.swap(k, best);
            if !is_pivot(m.rows[k][k]) {
                return None;
            }
            m.solve_column(k);
        }
        Some(m)
    }

    // The gradients of the rows, each times the last entry of its row in the matrix, summed.
    pub(crate) fn displacement(&self, rows: Rows) -> Point
        requires { length rows.list.now ≡ self.now.size }
        ensures { result ≡ displacement (rows_of rows.entry.list.now) (window (length rows.entry.list.now) self.now.rows) }
    {
        let n = self.size;
        let mut s = Point {
            x: -0.0,
            y: -0.0,
            z: -0.0,
        };
        for (i, r) in rows.list.iter().enumerate() {
            s = add_scaled(s, r.gradient, self.rows[i][n]);
        }
        s
    }
}
