// The feature test: the strata of vertices of the boundary about the edge.
ghost use Rattle.std.specs.Prelude.{◌≡◌, ◌+◌, ◌*◌, ◌<◌, ◌≤◌, ◌&&◌, length, drop};
ghost use Rattle.mesh.specs.inside.Rows.{rows};
ghost use Rattle.mesh.specs.Tests.{every};
ghost use Rattle.mesh.specs.Link.{boundary_about};
ghost use Rattle.mesh.specs.Feature.{shared, feature_ok, strata_in};
ghost use Rattle.mesh.specs.inside.Group.{runs, same_first};
ghost use Rattle.mesh.specs.inside.LinkAreas.{tets_of, EdgeRows};
ghost use Rattle.mesh.specs.inside.LinkRows.{rim_by, curve_by, feature_run};

use crate::link::area::Area;
use crate::link::ends::Ends;
use crate::link::marks::has_mark;
use crate::runs::Runs;
use crate::strata::shared_bits;

// On which boundary faces a vertex lies: on one with a only, with b only, with both.
#[derive(Clone, Copy)]
struct On {
    a: bool,
    b: bool,
    both: bool,
}

// Whether the edge from b to a vertex x after the collapse has the labels that it should have. The ends share sa and sb bits with x.
fn rim_by(sa: u32, sb: u32, on: On) -> bool
    ensures { result ≡ rim_by sa sb on.a on.b on.both }
{
    sb < 2 || on.b || on.a && (on.both || sa == sb)
}

// Whether a labelled edge a b and x are no triangle of labelled edges; `ab` where a boundary face has both ends.
fn curve_by(sa: u32, on: On, ab: bool) -> bool
    ensures { result ≡ curve_by sa on.a on.b on.both ab }
{
    sa < 2 || !ab || !on.both && !(on.a && on.b)
}

// What the tests by masks read: the ends of the edge, their strata, and whether some boundary face has both.
#[derive(Clone, Copy)]
struct Edge<'a> {
    ends: Ends<'a>,
    ma: u64,
    mb: u64,
    ab: bool,
    ghost first: { ma ≡ strata_in ends.strata ends.a },
    ghost second: { mb ≡ strata_in ends.strata ends.b },
    ghost low: { ma < 274877906944 },
    ghost lower: { mb < 274877906944 },
}

// The tests by masks of one vertex, whose stratum is mx.
fn vertex_by(e: &Edge<'_>, mx: u64, on: On) -> bool
    ensures { result ≡ (rim_by (length (shared e.now.ma mx)) (length (shared e.now.mb mx)) on.a on.b on.both
        && curve_by (length (shared e.now.ma mx)) on.a on.b on.both e.now.ab) }
{
    let sa = shared_bits(e.ma, mx);
    let sb = shared_bits(e.mb, mx);
    rim_by(sa, sb, on) && curve_by(sa, on, e.ab)
}

// The tests by masks of the vertex of the k rows from p on; an edge, a and b pass.
fn feature_run(area: &[u32], p: usize, k: usize, e: &Edge<'_>) -> bool
    requires { (0 < k) × (p + k * 3 ≤ length area.now) }
    ensures { result ≡ feature_run (strata_in e.now.ends.strata) e.now.ends.a e.now.ends.b e.now.ab (rows 3 k (drop p area.now)) }
{
    let x = area[p];
    if x != area[p + 1] || x == e.ends.a || x == e.ends.b {
        return true;
    }
    let mx = e.ends.strata.of(x);
    let a = has_mark(area, p, k, 2, 1);
    let b = has_mark(area, p, k, 2, 2);
    let both = has_mark(area, p, k, 2, 3);
    vertex_by(e, mx, On { a, b, both })
}

// Whether every run of the m rows of 3 words from p on passes.
fn features_pass(area: &[u32], p: usize, m: usize, e: &Edge<'_>) -> bool
    requires { p + m * 3 ≤ length area.now }
    ensures { result ≡ every (feature_run (strata_in e.now.ends.strata) e.now.ends.a e.now.ends.b e.now.ab) (runs (same_first 2) (rows 3 m (drop p area.now))) }
{
    Runs::new(area, p, m, 3, 2).all(|(i, k)| feature_run(area, i, k, e))
}

// Third test: `feature_link_ok`, by masks, from the m sorted rows behind the first 16 words an element.
pub(crate) fn feature_ok_in(area: &Area<'_>, m: usize, e: Ends) -> bool
    requires { EdgeRows e.a e.b m area.now }
    ensures { result ≡ feature_ok (strata_in e.entry.strata) e.entry.a e.entry.b (boundary_about e.entry.a e.entry.b (tets_of area.now)) }
{
    let from = area.boundary_start();
    let edge = Edge {
        ends: e,
        ma: e.strata.of(e.a),
        mb: e.strata.of(e.b),
        ab: has_mark(area.words, from, m, 2, 3),
    };
    features_pass(area.words, from, m, &edge)
}
