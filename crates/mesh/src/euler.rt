// How many vertices, edges and triangles the elements use, for the table's `euler`.
//
// An area for n elements has 28 n words: the elements, 4 n words; the rows of one size, at most 12 n words; as many words of scratch.
// The rows are first the vertices, 4 n rows of 1 word, then the edges, 6 n rows of 2 words, then the triangles, 4 n rows of 3 words,
// each with its vertices in rising order.
//
// Kept by hand, in all functions here that take an area: the number of its elements or rows beside it, since memory is lent and fixed
// (no heap) and the words behind are rows and scratch.
ghost use Rattle.std.specs.Prelude.{◌≡◌, ℕ, ◌+◌, ◌*◌, ◌<◌, ◌≤◌, map, length, take};
ghost use Rattle.mesh.specs.Words.{numbers};
ghost use Rattle.mesh.specs.inside.Manifold.{filled, KeptBelow};
ghost use Rattle.mesh.specs.inside.Euler.{ends_at, different, Counted, counted_in, vertex_row_at, edge_row_at, triangle_row_at};
ghost use Rattle.mesh.specs.inside.RowWidths.{vertex_row-wide, edge_row-wide, triangle_row-wide};

use crate::element::{Pair, Tet, edge, face_key, tet_face};
use crate::rows::{Rows, fill_rows, sort_from, unique_rows};
use crate::vertex::{fits, tet_at};
use crate::words::{at, clear_from};

// How many simplices of each size.
#[derive(Clone, Copy, PartialEq, Eq, Debug, Default)]
pub struct Counts {
    pub vertices: usize,
    pub edges: usize,
    pub triangles: usize,
    pub elements: usize,
}

// The ends of the edge k of an element, from 0: a b, a c, a d, b c, b d, c d. From 5 on the last.
// Kept by hand: no plainer: an array of six edges would be read by the same number, as `EdgeRows` has it.
pub(crate) fn tet_ends(t: Tet, k: usize) -> Pair
    ensures { result ≡ ends_at t k }
{
    let Tet { a, b, c, d } = t;
    match k {
        0 => Pair { a, b },
        1 => Pair { a, b: c },
        2 => Pair { a, b: d },
        3 => Pair { a: b, b: c },
        4 => Pair { a: b, b: d },
        _ => Pair { a: c, b: d },
    }
}

// The vertices of elements as rows: 4 e + k for the vertex k of the element e.
struct VertexRows;

impl Rows<1> for VertexRows {
    ghost words = { λ r. vertex_row_at };

    #[tactic(auto, unfolding(crate::specs::inside::Euler::vertex_row_at))]
    fn row(&self, elements: &[u32], j: usize) -> [u32; 1] {
        [at(elements, j)]
    }

    ghost wide = { λ r. vertex_row-wide };
}

// The edges of elements as rows: 6 e + k for the edge k of the element e.
pub(crate) struct EdgeRows;

impl Rows<2> for EdgeRows {
    ghost words = { λ r. edge_row_at };

    #[tactic(auto, unfolding(crate::specs::inside::Euler::edge_row_at))]
    fn row(&self, elements: &[u32], j: usize) -> [u32; 2] {
        let x = tet_ends(tet_at(elements, j / 6), j % 6);
        let e = edge(x.a, x.b);
        [e.a, e.b]
    }

    ghost wide = { λ r. edge_row-wide };
}

// The triangles of elements as rows: 4 e + k for the face k of the element e.
pub(crate) struct TriangleRows;

impl Rows<3> for TriangleRows {
    ghost words = { λ r. triangle_row_at };

    #[tactic(auto, unfolding(crate::specs::inside::Euler::triangle_row_at))]
    fn row(&self, elements: &[u32], j: usize) -> [u32; 3] {
        let f = tet_face(tet_at(elements, j / 4), (j % 4) as u32);
        face_key(f).corners()
    }

    ghost wide = { λ r. triangle_row-wide };
}

// Writes the rows of the triangles of n elements behind them.
pub(crate) fn list_triangles(area: &mut [u32], n: usize)
    requires { (n ≤ 65536) × (28 * n ≤ length area.old) }
    ensures { area.new ≡ filled (triangle_row_at area.old) 3 (4 * n) (4 * n) area.old }
{
    fill_rows(area, 4 * n, 4 * n, &TriangleRows);
}

// How many different rows of one kind there are among the n rows that the first `from` words tell.
fn count_kind<const W: usize, R: Rows<W>>(
    area: &mut [u32],
    from: usize,
    n: usize,
    kind: &R,
) -> usize
    requires room { (0 < W) × (from + (n + n) * W ≤ length area.old) }
    requires few { n ≤ 4294967296 }
    requires told { (j : ℕ) → j < n → R.words kind.now (take from area.old) j ≡ R.words kind.now area.old j }
    ensures { (result ≡ different (map (R.words kind.now area.old) (numbers 0 n))) × KeptBelow from area.old area.new }
{
    fill_rows(area, from, n, kind);
    sort_from(area, from, n, W);
    unique_rows(&mut area[from..], n, W)
}

// The counts of the n elements at the front of the area. The elements are kept, and behind them all is 0. All counts are 0 where the area
// is too small, and then it is as it was.
pub fn euler_in(area: &mut [u32], n: usize) -> Counts
    ensures { ◌≡◌ {A = Counted} (record { counts = result; area = area.new }) (counted_in n area.old) }
{
    if !fits(n, 28, area.len()) {
        return Counts::default();
    }
    let m = 4 * n;
    let vertices = count_kind(area, m, m, &VertexRows);
    let edges = count_kind(area, m, 6 * n, &EdgeRows);
    let triangles = count_kind(area, m, m, &TriangleRows);
    clear_from(area, m);
    Counts {
        vertices,
        edges,
        triangles,
        elements: n,
    }
}
