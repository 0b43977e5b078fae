// The marks of elements and faces about an edge, the simplices of their links, and the marks in runs of equal rows.
ghost use Rattle.std.specs.Prelude.{◌≡◌, ◌+◌, ◌*◌, ◌≤◌, length, drop};
ghost use Rattle.mesh.specs.inside.Rows.{rows};
ghost use Rattle.mesh.specs.Complex.{mem};
ghost use Rattle.mesh.specs.Tests.{every};
ghost use Rattle.mesh.specs.inside.Group.{runs, same_first};
ghost use Rattle.mesh.specs.inside.LinkRows.{mark_by, mark, apex, opposite, link_face, subset_at, marked, meet_run};

use crate::element::{Pair, Tet, Triple, face_key};
use crate::runs::Runs;

// 3 with both ends, 1 with a only, 2 with b only, 0 with neither, from whether a and b are there.
// Kept by hand: no enum, since a mark is a word of a row, and rows are sorted and compared as words.
fn mark_by(a: bool, b: bool) -> u32
    ensures { result ≡ mark_by a b }
{
    u32::from(a) + 2 * u32::from(b)
}

// The vertices of an element but v.
// Kept by hand: one generic of this and `beside` would give an array of one vertex less, a const argument that is computed; with two
// parameters, each call would name both and the contract would say that one is the other and 1.
#[tactic(auto, unfolding(crate::specs::inside::LinkRows::opposite))]
fn opposite(t: Tet, v: u32) -> Triple
    ensures { result ≡ opposite t v }
{
    let Tet { a, b, c, d } = t;
    if v == a {
        Triple { a: b, b: c, c: d }
    } else if v == b {
        Triple { a, b: c, c: d }
    } else if v == c {
        Triple { a, b, c: d }
    } else {
        Triple { a, b, c }
    }
}

// Whether v is one of the vertices vs.
// Kept by hand: `contains` proves here too, but the link test of 600 elements takes 2 % longer with it.
fn has(vs: &[u32], v: u32) -> bool
    ensures { result ≡ mem v vs.now }
{
    vs.iter().any(|u| *u == v)
}

// An edge a b that may be collapsed.
impl Pair {
    // The mark of a simplex with the vertices vs.
    pub(crate) fn mark(self, vs: &[u32]) -> u32
        ensures { result ≡ mark self.a self.b vs.now }
    {
        mark_by(has(vs, self.a), has(vs, self.b))
    }

    // The end that a simplex with the vertices vs is taken at: b where it has not a.
    pub(crate) fn apex(self, vs: &[u32]) -> u32
        ensures { result ≡ apex self.a self.b vs.now }
    {
        if has(vs, self.a) { self.a } else { self.b }
    }

    // The key of the face of an element opposite that end.
    pub(crate) fn link_face(self, t: Tet) -> Triple
        ensures { result ≡ link_face self.a self.b t }
    {
        face_key(opposite(t, self.apex(&t.vertices())))
    }
}

// The set k of one, two or three of the vertices of a key: its last vertex repeated. From 6 on the key itself.
// Kept by hand: no plainer. k is a row's number within its element and is computed from the row's number; an enum would need the same match
// to be made of it, and an array of the seven sets would write all of them to give one.
#[tactic(auto, unfolding(crate::specs::inside::LinkRows::subset_at))]
pub(crate) fn subset(f: Triple, k: usize) -> Triple
    ensures { result ≡ subset_at f k }
{
    let Triple { a, b, c } = f;
    match k {
        0 => Triple { a: c, b: c, c },
        1 => Triple { a: b, b, c: b },
        2 => Triple { a, b: a, c: a },
        3 => Triple { a: b, b: c, c },
        4 => Triple { a, b: c, c },
        5 => Triple { a, b, c: b },
        _ => f,
    }
}

// Whether one of the k rows of kw + 1 words from p on has the mark m.
pub(crate) fn has_mark(area: &[u32], p: usize, k: usize, kw: usize, m: u32) -> bool
    requires { p + k * (kw + 1) ≤ length area.now }
    ensures { result ≡ marked kw m (rows (kw + 1) k (drop p area.now)) }
{
    (0..k).any(|i| area[p + i * (kw + 1) + kw] == m)
}

// Whether the simplex of the k rows of kw + 1 words from p on is in the edge's link or not in both of its ends' links.
fn run_meets(area: &[u32], p: usize, k: usize, kw: usize) -> bool
    requires { p + k * (kw + 1) ≤ length area.now }
    ensures { result ≡ meet_run kw (rows (kw + 1) k (drop p area.now)) }
{
    has_mark(area, p, k, kw, 3) || !has_mark(area, p, k, kw, 1) || !has_mark(area, p, k, kw, 2)
}

// Whether that is so of every run of the m rows of kw + 1 words from p on.
pub(crate) fn links_meet(area: &[u32], p: usize, m: usize, kw: usize) -> bool
    requires { (kw ≤ 3) × (p + m * (kw + 1) ≤ length area.now) }
    ensures { result ≡ every (meet_run kw) (runs (same_first kw) (rows (kw + 1) m (drop p area.now))) }
{
    Runs::new(area, p, m, kw + 1, kw).all(|(i, k)| run_meets(area, i, k, kw))
}
