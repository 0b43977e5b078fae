// The listed faces and edges of `flip`, tried one after the other.
// Kept by hand: two functions, one for faces and one for edges. Written as a trait (how many there are, what one trial does, the loop's
// invariant as a ghost member), two structs with an impl each and one generic loop it has 123 lines in place of these 63, and the
// invariants of both loops, with the records under them, have to leave the proofs for specs/; no plainer. With a closure in the trait's
// place the generic function is the library's `fold`, whose closure would change the work slice that it captures.
ghost use Rattle.std.specs.Prelude.{◌≡◌, List, map, ◌*◌, ◌≤◌, length, drop};
ghost use Rattle.mesh.specs.declared.element.Pair.{Pair};
ghost use Rattle.mesh.specs.declared.element.Triple.{Triple};
ghost use Rattle.mesh.specs.declared.element.Tet.{Tet};
ghost use Rattle.mesh.specs.Words.{points_in};
ghost use Rattle.mesh.specs.inside.Rows.{rows};
ghost use Rattle.mesh.specs.inside.Shared.{shared_row};
ghost use Rattle.mesh.specs.Measure.{measure};
ghost use Rattle.repair.specs.Flip.{State, try_faces, try_edges};
ghost use Rattle.repair.specs.inside.flip.Layout.{RoomFor, FacesBound, EdgesBound};
ghost use Rattle.repair.specs.inside.flip.Tries.{Holds, Went, Start, FacesListed, EdgesListed, edge_row, face_rows_at, edge_rows_at};

use crate::flip::counts::{Lists, Tried};
use crate::flip::inputs::Inputs;
use crate::flip::layout::{edges_at, faces_at, triple_from};
use crate::flip::three_to_two::try_edge;
use crate::flip::two_to_three::try_face;
use crate::slots::pair_from;
use mesh::words::at;

// Tries the listed faces in order, `count` of them, from no flip on.
pub(crate) fn try_faces(work: &mut [u32], given: &Inputs, count: usize) -> Tried
    requires { RoomFor given.now work.old × (count ≤ 4 * given.now.elements) }
    ensures went { (ts : List Tet) (fs : List Triple) (s : State) → Holds given.now.index given.now.elements (record { slots = given.now.elements; flips = 0 }) work.old s → length ts ≡ given.now.elements
        → rows 5 count (drop (face_rows_at given.now.index given.now.elements) work.old) ≡ map (shared_row ts) fs → FacesListed given.now.index.vertices ts fs → Start ts s → FacesBound given.now.elements s.slots
        → Went given.now.index given.now.elements (FacesBound given.now.elements) work.old work.new result (try_faces (measure (points_in given.now.points)) ts s fs) }
    ensures slots_bound { (result.slots ≤ 131072) × (result.flips ≤ 4 * given.now.elements) }
{
    let x = given.index;
    let n = given.elements;
    let start = faces_at(x) + 4 * (n as usize);
    let mut t = Tried { slots: n, flips: 0 };
    for i in 0..count {
        let p = start + 5 * i;
        let f = triple_from(work, p);
        let a = at(work, p + 3);
        let b = at(work, p + 4);
        t = try_face(work, given, t, f, a, b);
    }
    t
}

// Tries the listed edges in order, from the flips made so far on.
pub(crate) fn try_edges(work: &mut [u32], given: &Inputs, l: Lists, t: Tried) -> Tried
    requires { RoomFor given.now work.old × (l.bad ≤ given.now.elements) × (l.edges ≤ 6 * given.now.elements) × (t.slots ≤ 131072) × (t.flips ≤ 4 * given.now.elements) }
    ensures went { (es : List Pair) (s : State) → Holds given.now.index given.now.elements t work.old s
        → rows 2 l.edges (drop (edge_rows_at given.now.index given.now.elements l.bad) work.old) ≡ map edge_row es → EdgesListed given.now.index.vertices es → EdgesBound given.now.elements s.slots
        → Went given.now.index given.now.elements (EdgesBound given.now.elements) work.old work.new result (try_edges (measure (points_in given.now.points)) s es) }
    ensures slots_bound { (result.slots ≤ 131072) × (result.flips ≤ 10 * given.now.elements) }
{
    let n = given.elements;
    let start = edges_at(given.index, n) + 4 * (n as usize) + 4 * l.bad;
    let mut r = t;
    for i in 0..l.edges {
        let e = pair_from(work, start + 2 * i);
        r = try_edge(work, given, r, e);
    }
    r
}
