// A round of `improve`: for each listed edge both directions, until one succeeds.
ghost use Rattle.std.specs.Prelude.{◌≡◌, true, ℕ, ◌+◌, ◌*◌, ◌≤◌, ◌<◌, length};
ghost use Rattle.mesh.specs.Words.{word_at};
ghost use Rattle.mesh.specs.Tests.{every};
ghost use Rattle.mesh.specs.Measure.{measure};
ghost use Rattle.repair.specs.Mesh.{Mesh};
ghost use Rattle.repair.specs.Improve.{State, try_edges};
ghost use Rattle.repair.specs.inside.Layout.{edges_at, edges_in};
ghost use Rattle.repair.specs.inside.improve.Round.{ReadsOf, StandsOf, ReadyOf, below, MayPair};

use crate::improve::collapse::replace_all;
use crate::improve::gain::gains;
use crate::improve::inputs::Inputs;
use crate::improve::pair_test::pair_ok;
use crate::improve::partners::{find_pairs, is_active, stratum_rule};
use crate::layout::edges_at;
use crate::slots::pair_from;
use mesh::element::Pair;
use mesh::star::Index;

// The edge i of the round.
fn edge_at(work: &[u32], x: Index, i: usize) -> Pair
    requires { (edges_at x ≤ 1048576) × (i ≤ 1048576) }
    ensures { (result.a ≡ word_at work.now (edges_at x + 4 * i + 2)) × (result.b ≡ word_at work.now (edges_at x + 4 * i + 3)) }
{
    pair_from(work, edges_at(x) + 4 * i + 2)
}

// How many pairs the groups of e.a and e.b make, where e.a's stratum is inside e.b's and they pair off.
fn may_pair(work: &mut [u32], given: &Inputs, e: Pair) -> Option<usize>
    requires { ReadyOf given.now work.old × (e.a < given.now.index.vertices) × (e.b < given.now.index.vertices) }
    ensures { (m : Mesh) (s : State) → ReadsOf given.now m → StandsOf given.now m work.old s
        → MayPair given.now.options m given.now.index given.now.index.room s e.a e.b work.old work.new result }
{
    if stratum_rule(given, e) {
        find_pairs(work, given, e)
    } else {
        None
    }
}

// One round over the first `count` edges of the edges' area. Gives how many vertices were replaced.
pub(crate) fn round(work: &mut [u32], given: &Inputs, count: usize) -> usize
    requires { ReadyOf given.now work.old × (count ≤ 6 * given.now.index.room) × (every (below given.now.index.vertices) (edges_in given.now.index count work.old) ≡ true) }
    ensures stands { (m : Mesh) (s : State) → ReadsOf given.now m → StandsOf given.now m work.old s
        → StandsOf given.now m work.new (try_edges given.now.options m (measure m.points) s (edges_in given.now.index count work.old))
        × (length (try_edges given.now.options m (measure m.points) s (edges_in given.now.index count work.old)).replaced ≡ result + length s.replaced) }
    ensures upper_bound { result ≤ 4096 * count }
{
    let x = given.index;
    let mut replaced = 0;
    'edges: for i in 0..count {
        let e = edge_at(work, x, i);
        if !is_active(work, x, e.a) || !is_active(work, x, e.b) {
            continue 'edges;
        }
        'directions: for t in [e, Pair { a: e.b, b: e.a }] {
            let Some(k) = may_pair(work, given, t) else {
                continue 'directions;
            };
            for p in 0..k {
                if !pair_ok(work, given, p) {
                    continue 'directions;
                }
            }
            if !gains(work, given, k) {
                continue 'directions;
            }
            replace_all(work, x, k);
            replaced += k;
            continue 'edges;
        }
    }
    replaced
}
