// The bad elements, their edges and their faces: what `flip` lists at its start.
//
// An area for n slots has 32 n words: the slots, 4 n words; the bad elements, at most 4 n words; the rows of their edges or faces, at most
// 12 n words; as many words of scratch.
//
// Kept by hand: without a heap the slots, what is listed behind them and the scratch are parts of one lent area, and n stands beside it.
// That a part begins inside its area (`a ≤ length area.old`) is asked by each function that takes one; a struct would ask it as often.
ghost use Rattle.std.specs.Prelude.{◌≡◌, ◌+◌, ◌-◌, ◌*◌, ◌<◌, ◌≤◌, ◌++◌, map, length, take, drop};
ghost use Rattle.mesh.specs.Words.{points_in, zero_words, flat};
ghost use Rattle.mesh.specs.inside.Rows.{rows, unique_rows, unique_area};
ghost use Rattle.mesh.specs.Complex.{keep};
ghost use Rattle.mesh.specs.Element.{tets, vertices_of};
ghost use Rattle.mesh.specs.inside.Manifold.{filled};
ghost use Rattle.mesh.specs.inside.Euler.{spread};
ghost use Rattle.mesh.specs.inside.List.{bad_in, set_of, bad_edges, bad_faces, Listing, listed_in, stacked, own_rows, Kind};

use crate::element::Tet;
use crate::euler::{EdgeRows, TriangleRows};
use crate::rows::{Rows, fill_rows, put_row, sort_from, unique_rows};
use crate::star::GONE;
use crate::vertex::{Points, fits, tet_at};
use crate::words::clear_from;

// How many bad elements, and how many rows.
#[derive(Clone, Copy, Default)]
pub struct Listed {
    pub elements: usize,
    pub rows: usize,
}

// Keeps the first of equal neighbours among the n rows from a on, and gives how many are kept.
fn unique_from(area: &mut [u32], a: usize, n: usize, w: usize) -> usize
    requires { a ≤ length area.old }
    ensures { (result ≡ length (unique_rows n w (drop a area.old)))
        × (area.new ≡ take a area.old ++ unique_area n w (drop a area.old)) }
{
    unique_rows(&mut area[a..], n, w)
}

// The n rows from a on sorted, each once, with zeros behind them, and how many they are.
pub(crate) fn set_from(area: &mut [u32], a: usize, n: usize, w: usize) -> usize
    requires { (0 < w) × (a + (n + n) * w ≤ length area.old) }
    ensures { (result ≡ length (set_of (rows w n (drop a area.old))))
        × (area.new ≡ take a area.old ++ (flat (set_of (rows w n (drop a area.old)))
        ++ zero_words (length area.old - (a + length (flat (set_of (rows w n (drop a area.old)))))))) }
{
    sort_from(area, a, n, w);
    let k = unique_from(area, a, n, w);
    clear_from(area, a + w * k);
    k
}

// The rows of the simplices of the k elements from a on, EACH of an element, behind them.
fn rows_from<const W: usize, const EACH: usize, R: Rows<W>>(
    area: &mut [u32],
    a: usize,
    k: usize,
    kind: &R,
)
    requires each { Kind W EACH (R.words kind.now) (own_rows (R.words kind.now) EACH) }
    requires room { (a ≤ length area.old) × (k ≤ 65536) × (28 * k ≤ length (drop a area.old)) }
    ensures { area.new ≡ take a area.old ++ filled (R.words kind.now (drop a area.old)) W (4 * k) (EACH * k) (drop a area.old) }
{
    fill_rows(&mut area[a..], 4 * k, EACH * k, kind);
}

impl<'a> Points<'a> {
    // Whether the element of a slot is bad. None is in a slot whose first word is GONE.
    pub(crate) fn is_bad_slot(self, t: Tet) -> bool
        ensures { result ≡ bad_in (points_in self.entry) t }
    {
        t.a != GONE && self.is_bad(t)
    }

    // Writes the bad elements of n slots behind them, and gives how many.
    fn list_bad(self, area: &mut [u32], n: usize) -> usize
        requires { (n ≤ 65536) × (32 * n ≤ length area.old) }
        ensures { (result ≡ length (keep (bad_in (points_in self.entry)) (tets n area.old)))
            × (area.new ≡ stacked (map vertices_of (keep (bad_in (points_in self.entry)) (tets n area.old))) 4 (4 * n) area.old) }
    {
        let mut k = 0;
        for e in 0..n {
            let t = tet_at(area, e);
            if self.is_bad_slot(t) {
                put_row(area, 4 * n + 4 * k, &t.vertices());
                k += 1;
            }
        }
        k
    }

    // The bad elements of n slots at the front of the area, and their simplices. The slots are kept; behind them stand the bad elements,
    // then the rows, then zeros. None, and the area as it was, where it is too small.
    fn bad_rows_in<const W: usize, const EACH: usize, R: Rows<W>>(
        self,
        area: &mut [u32],
        n: usize,
        kind: &R,
    ) -> Listed
        requires { Kind W EACH (R.words kind.now) (own_rows (R.words kind.now) EACH) }
        ensures { ◌≡◌ {A = Listing} (record { listed = result; area = area.new })
            (listed_in (λ ts. set_of (spread (own_rows (R.words kind.now) EACH) (keep (bad_in (points_in self.entry)) ts))) (points_in self.entry) n area.old) }
    {
        if !fits(n, 32, area.len()) {
            return Listed::default();
        }
        let elements = self.list_bad(area, n);
        rows_from::<W, EACH, R>(area, 4 * n, elements, kind);
        let rows = set_from(area, 4 * n + 4 * elements, EACH * elements, W);
        Listed { elements, rows }
    }

    // The bad elements of n slots at the front of the area, and their edges. The slots are kept; behind them stand the bad elements, then
    // the rows, then zeros. None, and the area as it was, where it is too small.
    pub fn bad_edges_in(self, area: &mut [u32], n: usize) -> Listed
        ensures { ◌≡◌ {A = Listing} (record { listed = result; area = area.new })
            (listed_in (bad_edges (points_in self.entry)) (points_in self.entry) n area.old) }
    {
        self.bad_rows_in::<2, 6, _>(area, n, &EdgeRows)
    }

    // The same with the keys of their faces.
    pub fn bad_faces_in(self, area: &mut [u32], n: usize) -> Listed
        ensures { ◌≡◌ {A = Listing} (record { listed = result; area = area.new })
            (listed_in (bad_faces (points_in self.entry)) (points_in self.entry) n area.old) }
    {
        self.bad_rows_in::<3, 4, _>(area, n, &TriangleRows)
    }
}
