// Three-to-two over an edge.
ghost use Rattle.std.specs.Prelude.{◌≡◌, [], ◌∷◌, ℕ, ◌+◌, ◌≤◌, ◌<◌, length, take};
ghost use Rattle.mesh.specs.Words.{points_in};
ghost use Rattle.mesh.specs.Element.{tet, vertices_of};
ghost use Rattle.mesh.specs.Link.{without};
ghost use Rattle.mesh.specs.Measure.{measure};
ghost use Rattle.repair.specs.Flip.{State, try_edge};
ghost use Rattle.repair.specs.inside.flip.Layout.{EdgesBound};
ghost use Rattle.repair.specs.inside.flip.Tries.{Holds, Counted, Counts, Went, EdgeListed, edge_row};
ghost use Rattle.repair.specs.inside.flip.ThreeToTwo.{three_in, others_of, Puts, ListedAt};

use crate::flip::counts::Tried;
use crate::flip::find::{any_live, list_both};
use crate::flip::inputs::Inputs;
use crate::flip::layout::triple_from;
use crate::flip::replace::replace;
use crate::slots::slot;
use mesh::element::{Pair, Tet, Triple};
use mesh::rows::{sort_rows, unique_rows};
use mesh::star::Index;
use mesh::words::put;

// The elements in the slots with the three numbers of f.
fn elements_in(work: &[u32], x: Index, f: Triple) -> [Tet; 3]
    requires { x.slots ≤ 1048576 }
    ensures { result ≡ three_in x work.now f }
{
    [slot(work, x, f.a), slot(work, x, f.b), slot(work, x, f.c)]
}

// Puts v at k unless it is a vertex of e, and gives the place behind.
fn put_other(area: &mut [u32], k: usize, v: u32, e: Pair) -> usize
    requires { k < length area.old }
    ensures puts { Puts area.old k (without (edge_row e) (v ∷ [])) result area.new }
    ensures upper_bound { result ≤ k + 1 }
{
    if v == e.a || v == e.b {
        return k;
    }
    put(area, k, v);
    k + 1
}

// Puts the vertices of t that are none of e at k, and gives the place behind.
fn put_others(area: &mut [u32], k: usize, t: Tet, e: Pair) -> usize
    requires { k + 4 ≤ length area.old }
    ensures puts { Puts area.old k (without (edge_row e) (vertices_of t)) result area.new }
    ensures upper_bound { result ≤ k + 4 }
{
    let mut n = k;
    for v in [t.a, t.b, t.c, t.d] {
        n = put_other(area, n, v, e);
    }
    n
}

// Lists the vertices of the elements that are none of e, in order, each once, at the front, and gives how many.
fn others(area: &mut [u32], old: &[Tet], e: Pair) -> usize
    requires { (length old.now ≤ 3) × (24 ≤ length area.old) }
    ensures { (result ≡ length (others_of e old.now)) × (take result area.new ≡ others_of e old.now) }
{
    let mut n = 0;
    for t in old {
        n = put_others(area, n, *t, e);
    }
    sort_rows(area, n, 1);
    unique_rows(area, n, 1)
}

// Lists those vertices at the area's front, where the area has 24 words, and gives how many.
fn list_others(work: &mut [u32], x: Index, old: &[Tet], e: Pair) -> usize
    requires { length old.now ≤ 3 }
    ensures { x.area + 24 ≤ length work.old → ListedAt x.area (others_of e old.now) work.old work.new result }
{
    let a = x.area;
    if work.len() < a || work.len() - a < 24 {
        return 0;
    }
    others(&mut work[a..a + 24], old, e)
}

// The two elements with the face f and a vertex of the edge e each.
fn candidates(f: Triple, e: Pair) -> [Tet; 2]
    ensures { result ≡ tet f.a f.b f.c e.a ∷ tet f.a f.b f.c e.b ∷ [] }
{
    let t = Tet {
        a: f.a,
        b: f.b,
        c: f.c,
        d: e.a,
    };
    [t, Tet { d: e.b, ..t }]
}

// Tries the edge e.
pub(crate) fn try_edge(work: &mut [u32], given: &Inputs, t: Tried, e: Pair) -> Tried
    requires { Counted given.now.index t }
    ensures by_index { (n : ℕ) (s : State) → Holds given.now.index n t work.old s → EdgeListed given.now.index.vertices e → EdgesBound n s.slots
        → Went given.now.index n (EdgesBound n) work.old work.new result (try_edge (measure (points_in given.now.points)) s e) }
    ensures counts { Counts t result }
{
    let x = given.index;
    let k = list_both(work, x, e);
    if k != 3 {
        return t;
    }
    let i = triple_from(work, x.area);
    let old = elements_in(work, x, i);
    let m = list_others(work, x, &old, e);
    if m != 3 {
        return t;
    }
    let f = triple_from(work, x.area);
    if any_live(work, x, f.a, f.b, f.c) {
        return t;
    }
    let mut new = candidates(f, e);
    replace(work, given, t, &[i.a, i.b, i.c], &old, &mut new)
}
