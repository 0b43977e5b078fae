// The faces of bad elements that exactly two elements have: what `flip` takes two-to-three.
//
// An area for n elements has 44 n words: the elements, 4 n words; the rows of their faces, 20 n words; as many words of scratch, where the
// answer is gathered. The row of a face has 5 words: its key, the number of its element, and 1 where that is bad, else 0. A row of the
// answer has 5 words: the key, and the numbers of the two elements, the smaller first.
//
// Kept by hand: without a heap the elements, the rows and the answer are parts of one lent area, and n stands beside it.
ghost use Rattle.std.specs.Prelude.{◌≡◌, ◌+◌, ◌*◌, ◌≤◌, ◌&&◌, [], ◌∷◌, map, length, drop, ◌==◌};
ghost use Rattle.std.proofs.Math.Seq.{paste};
ghost use Rattle.mesh.specs.Words.{word_at, points_in};
ghost use Rattle.mesh.specs.inside.Rows.{rows};
ghost use Rattle.mesh.specs.Element.{faces_of, tets};
ghost use Rattle.mesh.specs.inside.Group.{runs, same_first};
ghost use Rattle.mesh.specs.inside.List.{Pushed};
ghost use Rattle.mesh.specs.inside.Shared.{Shares, shared_in, owned_row, bad_mark, owned_from, run_row, runs_rows};

use crate::element::{Tet, face_key, tet_face};
use crate::rows::{put_row, sort_from};
use crate::runs::Runs;
use crate::vertex::{Points, fits, tet_at};
use crate::words::{clear_from, copy_words};

// 1 for a bad element, else 0.
fn bad_mark(points: Points, t: Tet) -> u32
    ensures { result ≡ bad_mark (points_in points.entry) t }
{
    u32::from(points.is_bad_slot(t))
}

// Writes the rows of the faces of the element i from p on.
fn put_faces(area: &mut [u32], p: usize, t: Tet, i: u32, mark: u32)
    requires { p + 20 ≤ length area.old }
    ensures { Pushed (map (owned_row i mark) (faces_of t)) 5 p area.old area.new 4 }
{
    for k in 0..4 {
        let f = face_key(tet_face(t, k));
        put_row(area, p + 5 * (k as usize), &[f.a, f.b, f.c, i, mark]);
    }
}

// Writes the rows of the faces of n elements behind them.
// Kept by hand: `fill_rows` would ask for the mark of an element at each of its four rows, and so for its score four times.
fn list_owned(area: &mut [u32], n: usize, points: Points)
    requires { (n ≤ 65536) × (44 * n ≤ length area.old) }
    ensures { Pushed (owned_from (points_in points.entry) 0 (tets n area.old)) 5 (4 * n) area.old area.new (4 * n) }
{
    for i in 0..n {
        let t = tet_at(area, i);
        let mark = bad_mark(points, t);
        put_faces(area, 4 * n + 20 * i, t, i as u32, mark);
    }
}

// Whether neither of the two rows at p is that of a bad element.
fn none_bad(area: &[u32], p: usize) -> bool
    requires { p + 10 ≤ length area.now }
    ensures { result ≡ (word_at area.now (p + 4) == 0 && word_at area.now (p + 9) == 0) }
{
    area[p + 4] == 0 && area[p + 9] == 0
}

// Writes what the run of k rows at p of the area gives at q of `out`, and gives how many rows that is.
fn push_run(area: &[u32], p: usize, k: usize, out: &mut [u32], q: usize) -> usize
    requires { (p + 5 * k ≤ length area.now) × (q + 5 ≤ length out.old) }
    ensures { Pushed (run_row (rows 5 k (drop p area.now))) 5 q out.old out.new result × (result ≤ 1) }
{
    if k != 2 || none_bad(area, p) {
        return 0;
    }
    let row = [area[p], area[p + 1], area[p + 2], area[p + 3], area[p + 8]];
    put_row(out, q, &row);
    1
}

// Writes what the runs of one key among the 4 n rows behind the n elements give behind the rows, and gives how many rows that is.
fn push_runs(area: &mut [u32], n: usize) -> usize
    requires { (n ≤ 65536) × (44 * n ≤ length area.old) }
    ensures { Pushed (runs_rows (runs (same_first 3) (rows 5 (4 * n) (drop (4 * n) area.old)))) 5 (24 * n) area.old area.new result × (result ≤ 4 * n) }
{
    let m = 4 * n;
    let (front, out) = area.split_at_mut(24 * n);
    let mut count = 0;
    for run in Runs::new(front, m, m, 5, 3) {
        let (p, k) = run;
        count += push_run(front, p, k, out, 5 * count);
    }
    count
}

impl<'a> Points<'a> {
    // The faces of bad elements that exactly two of the n elements at the front of the area have, in key order, behind the elements, and
    // how many they are. The elements are kept, and behind the rows all is 0. None, and the area as it was, where it is too small.
    pub fn shared_faces_in(self, area: &mut [u32], n: usize) -> usize
        ensures { ◌≡◌ {A = Shares} (record { number = result; area = area.new })
            (shared_in (points_in self.entry) n area.old) }
    {
        if !fits(n, 44, area.len()) {
            return 0;
        }
        let m = 4 * n;
        list_owned(area, n, self);
        sort_from(area, m, m, 5);
        let k = push_runs(area, n);
        copy_words(area, 24 * n, m, 5 * k);
        clear_from(area, m + 5 * k);
        k
    }
}
