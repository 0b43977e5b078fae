// The score of an element: how far from flat it is.
ghost use Rattle.std.specs.Prelude.{◌≡◌};
ghost use Rattle.geometry.specs.Score.{squared_edge, squared_edges, score, bad, lowest};

use crate::float::{absolute, smaller};
use crate::point::{Point, determinant};
use crate::root::root;

// The squared length of the edge from a to b.
#[tactic(auto, unfolding(crate::specs::Score::squared_edge))]
pub fn squared_edge(a: Point, b: Point) -> f64
    ensures { result ≡ squared_edge a b }
{
    let e = b - a;
    e.dot(e)
}

// L: the sum of the six squared edges.
#[tactic(auto, unfolding(crate::specs::Score::squared_edges))]
pub fn squared_edges(a: Point, b: Point, c: Point, d: Point) -> f64
    ensures { result ≡ squared_edges a b c d }
{
    squared_edge(a, b)
        + squared_edge(a, c)
        + squared_edge(a, d)
        + squared_edge(b, c)
        + squared_edge(b, d)
        + squared_edge(c, d)
}

// (R * |determinant|) / (L * root of L), and 0 where that divisor is 0. 20.784609690826528 is R, the
// root of 432.
pub fn score(a: Point, b: Point, c: Point, d: Point) -> f64
    ensures { result ≡ score a b c d }
{
    let l = squared_edges(a, b, c, d);
    let divisor = l * root(l);
    if divisor == 0.0 {
        return 0.0;
    }
    20.784609690826528 * absolute(determinant(a, b, c, d)) / divisor
}

// Whether a score is bad: below 0.1.
pub fn is_bad(s: f64) -> bool
    ensures { result ≡ bad s }
{
    s < 0.1
}

// The lowest of 1 and the scores.
pub fn lowest(scores: &[f64]) -> f64
    ensures { result ≡ lowest scores.now }
{
    scores.iter().copied().fold(1.0, smaller)
}
