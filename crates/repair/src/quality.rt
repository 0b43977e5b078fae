// Elements measured one after the other: the lowest score, and how many are bad.
ghost use Rattle.std.specs.Prelude.{◌≡◌, ◌+◌, ◌*◌, ◌≤◌, length, drop};
ghost use Rattle.mesh.specs.Words.{word_at, points_in};
ghost use Rattle.mesh.specs.Element.{tet, tets};
ghost use Rattle.mesh.specs.Measure.{measure};
ghost use Rattle.repair.specs.inside.Quality.{counted, judged, started, tallied};

use geometry::float::smaller;
use geometry::score::is_bad;
use mesh::element::{Tet, four_different};
use mesh::vertex::Points;
use mesh::words::at;

// The element whose four words begin at p, 0 past the end.
pub(crate) fn element_from(work: &[u32], p: usize) -> Tet
    ensures { result ≡ tet (word_at work.now p) (word_at work.now (p + 1)) (word_at work.now (p + 2)) (word_at work.now (p + 3)) }
{
    if work.len() < p {
        return Tet {
            a: 0,
            b: 0,
            c: 0,
            d: 0,
        };
    }
    Tet {
        a: at(work, p),
        b: at(work, p + 1),
        c: at(work, p + 2),
        d: at(work, p + 3),
    }
}

// The lowest score so far, and how many elements are bad.
#[derive(Clone, Copy)]
pub struct Tally {
    pub lowest: f64,
    pub bad: usize,
}

impl Tally {
    // No elements yet.
    pub(crate) fn start() -> Tally
        ensures { result ≡ started }
    {
        Tally {
            lowest: 1.0,
            bad: 0,
        }
    }

    // One more score.
    pub(crate) fn counted(self, s: f64) -> Tally
        requires { self.bad ≤ 16384 }
        ensures { result ≡ counted self s }
    {
        Tally {
            lowest: smaller(self.lowest, s),
            bad: if is_bad(s) { self.bad + 1 } else { self.bad },
        }
    }

    // The element t counted too, unless two of its vertices are the same; nothing where it is not allowed, which is with determinant
    // above 0 and a score no more than 1e-12 below the limit.
    pub(crate) fn judged(self, points: Points, limit: f64, t: Tet) -> Option<Tally>
        requires { self.bad ≤ 16384 }
        ensures { result ≡ judged (measure (points_in points.entry)) limit self t }
    {
        if !four_different(t) {
            return Some(self);
        }
        let score = points.measured(t)?;
        if score + 1e-12 < limit {
            return None;
        }
        Some(self.counted(score))
    }

    // The elements that stand at p, n of them, four words each.
    pub(crate) fn of_elements(work: &[u32], p: usize, n: usize, points: Points) -> Tally
        requires { (n ≤ 16384) × (p + 4 * n ≤ length work.now) }
        ensures { result ≡ tallied (measure (points_in points.entry)) started (tets n (drop p work.now)) }
    {
        let mut r = Tally::start();
        for i in 0..n {
            let t = element_from(work, p + 4 * i);
            r = r.counted(points.score(t));
        }
        r
    }
}
