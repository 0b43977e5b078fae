// The short edges of bad elements: what a round of `improve` takes.
//
// An area for n slots has 52 n words: the slots, 4 n words; the rows of the edges, at most 24 n words; as many words of scratch. A row
// has 4 words: the bits of the edge's length, high word and low word, the smaller vertex and the larger vertex.
//
// Kept by hand: without a heap the slots, the rows and the scratch are parts of one lent area, and n stands beside it.
ghost use Rattle.std.specs.Prelude.{◌≡◌, ◌+◌, ◌*◌, ◌≤◌, [], ◌∷◌, length};
ghost use Rattle.mesh.specs.Words.{points_in};
ghost use Rattle.mesh.specs.Complex.{keep};
ghost use Rattle.mesh.specs.Element.{tets, edges_of, all_edges};
ghost use Rattle.mesh.specs.inside.List.{bad_in, Pushed};
ghost use Rattle.mesh.specs.inside.Short.{Shorts, short_in, short_rows};

use crate::element::{Pair, Tet, edge};
use crate::euler::tet_ends;
use crate::list::set_from;
use crate::rows::put_row;
use crate::vertex::{Points, fits, tet_at};
use crate::words::{high_half, low_half};
use geometry::word::order_bits;

// Which edges are short: those whose length between these points is below the limit.
#[derive(Clone, Copy)]
struct Short<'a> {
    points: Points<'a>,
    limit: f64,
}

impl<'a> Short<'a> {
    // Writes the row of an edge at p where it is short, and gives how many rows that is.
    fn push_edge(self, area: &mut [u32], p: usize, e: Pair) -> usize
        requires { p + 4 ≤ length area.old }
        ensures { Pushed (short_rows (points_in self.entry.points) self.entry.limit (e ∷ [])) 4 p area.old area.new result }
    {
        let length = self.points.edge_length(e);
        if length < self.limit {
            let bits = order_bits(length);
            put_row(area, p, &[high_half(bits), low_half(bits), e.a, e.b]);
            return 1;
        }
        0
    }

    // Writes the rows of the short edges of an element from p on, and gives how many they are.
    fn push_edges(self, area: &mut [u32], p: usize, t: Tet) -> usize
        requires { p + 24 ≤ length area.old }
        ensures { Pushed (short_rows (points_in self.entry.points) self.entry.limit (edges_of t)) 4 p area.old area.new result }
    {
        let mut k = 0;
        for j in 0..6 {
            let x = tet_ends(t, j);
            let e = edge(x.a, x.b);
            k += self.push_edge(area, p + 4 * k, e);
        }
        k
    }

    // Writes the rows of the short edges of the bad elements of n slots behind them, and gives how many they are.
    fn push_bad(self, area: &mut [u32], n: usize) -> usize
        requires { (n ≤ 65536) × (52 * n ≤ length area.old) }
        ensures { Pushed (short_rows (points_in self.entry.points) self.entry.limit (all_edges (keep (bad_in (points_in self.entry.points)) (tets n area.old)))) 4 (4 * n) area.old area.new result }
    {
        let mut k = 0;
        for e in 0..n {
            let t = tet_at(area, e);
            if self.points.is_bad_slot(t) {
                k += self.push_edges(area, 4 * n + 4 * k, t);
            }
        }
        k
    }
}

impl<'a> Points<'a> {
    // The rows of the edges of bad elements that are shorter than the limit, sorted, each once, behind the n slots at the front of the
    // area, and how many they are. The slots are kept, and behind the rows all is 0. None, and the area as it was, where it is too small.
    pub fn short_edges_in(self, area: &mut [u32], n: usize, limit: f64) -> usize
        ensures { ◌≡◌ {A = Shorts} (record { number = result; area = area.new })
            (short_in (points_in self.entry) limit n area.old) }
    {
        if !fits(n, 52, area.len()) {
            return 0;
        }
        let short = Short {
            points: self,
            limit,
        };
        let k = short.push_bad(area, n);
        set_from(area, 4 * n, k, 4)
    }
}
