// Two-to-three over a shared face.
ghost use Rattle.std.specs.Prelude.{◌≡◌, List, [], ◌∷◌, ℕ, length, get_or};
ghost use Rattle.mesh.specs.declared.element.Tet.{Tet};
ghost use Rattle.mesh.specs.Words.{points_in};
ghost use Rattle.mesh.specs.Element.{tet, vertices_of, corners_of};
ghost use Rattle.mesh.specs.Link.{without};
ghost use Rattle.mesh.specs.Measure.{measure};
ghost use Rattle.repair.specs.Flip.{State, try_face};
ghost use Rattle.repair.specs.inside.flip.Layout.{FacesBound};
ghost use Rattle.repair.specs.inside.flip.Tries.{Holds, Counted, Counts, Went, Start, FaceListed};

use crate::flip::counts::Tried;
use crate::flip::find::any_live;
use crate::flip::inputs::Inputs;
use crate::flip::replace::replace;
use crate::slots::live_slot;
use mesh::element::{Tet, Triple, is_corner};

// The first vertex of t that is no corner of f, and the last where all are.
fn apex(t: Tet, f: Triple) -> u32
    ensures { result ≡ get_or (without (corners_of f) (vertices_of t)) 0 t.d }
{
    [t.a, t.b, t.c]
        .iter()
        .copied()
        .find(|v| !is_corner(f, *v))
        .unwrap_or(t.d)
}

// The elements of the edge a b and each edge of f.
fn three_about(f: Triple, a: u32, b: u32) -> [Tet; 3]
    ensures { result ≡ tet a b f.a f.b ∷ tet a b f.b f.c ∷ tet a b f.c f.a ∷ [] }
{
    [
        Tet {
            a,
            b,
            c: f.a,
            d: f.b,
        },
        Tet {
            a,
            b,
            c: f.b,
            d: f.c,
        },
        Tet {
            a,
            b,
            c: f.c,
            d: f.a,
        },
    ]
}

// Tries the face f, which of the elements at the start i and j have.
pub(crate) fn try_face(
    work: &mut [u32],
    given: &Inputs,
    t: Tried,
    f: Triple,
    i: u32,
    j: u32,
) -> Tried
    requires { Counted given.now.index t }
    ensures by_index { (n : ℕ) (ts : List Tet) (s : State) → Holds given.now.index n t work.old s → length ts ≡ n → FaceListed given.now.index.vertices ts f i j → Start ts s → FacesBound n s.slots
        → Went given.now.index n (FacesBound n) work.old work.new result (try_face (measure (points_in given.now.points)) ts s f)
        × Start ts (try_face (measure (points_in given.now.points)) ts s f) }
    ensures counts { Counts t result }
{
    let x = given.index;
    let Some(p) = live_slot(work, x, i) else {
        return t;
    };
    let Some(q) = live_slot(work, x, j) else {
        return t;
    };
    let a = apex(p, f);
    let b = apex(q, f);
    if any_live(work, x, a, b, b) {
        return t;
    }
    let mut new = three_about(f, a, b);
    replace(work, given, t, &[i, j], &[p, q], &mut new)
}
