// A pair's tests. The elements about it are listed at the front of the area behind the layout (layout.rt), with scratch behind them.
ghost use Rattle.std.specs.Prelude.{◌≡◌, true, ◌&&◌, ◌+◌, ◌*◌, ◌≤◌, ◌<◌, length, drop};
ghost use Rattle.mesh.specs.Words.{word_at};
ghost use Rattle.mesh.specs.Tests.{every, nodup, any};
ghost use Rattle.mesh.specs.Element.{pair, vertices_of, tets};
ghost use Rattle.repair.specs.Mesh.{Mesh, has};
ghost use Rattle.repair.specs.Improve.{State, pair_ok};
ghost use Rattle.repair.specs.inside.Layout.{Same, pairs_at};
ghost use Rattle.repair.specs.inside.improve.Partners.{strata_of};
ghost use Rattle.repair.specs.inside.improve.Round.{ReadsOf, StandsOf, ReadyOf};
ghost use Rattle.repair.specs.inside.improve.PairTest.{elements_link};

use crate::improve::inputs::Inputs;
use crate::improve::partners::stratum_rule;
use crate::layout::pairs_at;
use crate::slots::pair_from;
use mesh::element::{Pair, Tet, has_vertex};
use mesh::vertex::tet_at;

// Whether an element has both vertices of e.
fn has_both(t: Tet, e: Pair) -> bool
    ensures { result ≡ (has e.a t && has e.b t) }
{
    has_vertex(t, e.a) && has_vertex(t, e.b)
}

// Whether one of the first k elements has both vertices of e.
fn any_both(elements: &[u32], k: usize, e: Pair) -> bool
    ensures { result ≡ any (λ t. has e.a t && has e.b t) (tets k elements.now) }
{
    (0..k).any(|i| has_both(tet_at(elements, i), e))
}

// Whether one of the k elements from i on has both vertices of e, and e passes the link tests among them. The 84 k words behind them are
// scratch.
fn elements_link(work: &mut [u32], given: &Inputs, i: usize, k: usize, e: Pair) -> bool
    requires { (i ≤ 4194304) × (k ≤ 16384) × (i + 88 * k ≤ length work.old) × (every (λ t. nodup (vertices_of t)) (tets k (drop i work.old)) ≡ true) }
    ensures value { result ≡ elements_link (strata_of given.now) e.a e.b (tets k (drop i work.old)) }
    ensures same { Same work.old work.new i (i + 88 * k) }
{
    let end = i + 88 * k;
    if !any_both(&work[i..end], k, e) {
        return false;
    }
    given.strata().link_ok_in(&mut work[i..end], k, e.a, e.b)
}

// Whether the pair p of the pairs' area keeps the stratum rule, shares a live element and passes the link tests.
pub(crate) fn pair_ok(work: &mut [u32], given: &Inputs, p: usize) -> bool
    requires { ReadyOf given.now work.old × (p < given.now.index.vertices)
        × (word_at work.old (pairs_at given.now.index + 2 * p) < given.now.index.vertices) × (word_at work.old (pairs_at given.now.index + 2 * p + 1) < given.now.index.vertices) }
    ensures value { (m : Mesh) (s : State) → ReadsOf given.now m → StandsOf given.now m work.old s
        → result ≡ pair_ok given.now.options m s.elements (pair (word_at work.old (pairs_at given.now.index + 2 * p)) (word_at work.old (pairs_at given.now.index + 2 * p + 1))) }
    ensures same { Same work.old work.new given.now.index.area (length work.old) }
{
    let x = given.index;
    let e = pair_from(work, pairs_at(x) + 2 * p);
    if !stratum_rule(given, e) {
        return false;
    }
    let k = x.star(work, e.a, e.b);
    x.elements_at(work, k);
    elements_link(work, given, x.area + k, k, e)
}
