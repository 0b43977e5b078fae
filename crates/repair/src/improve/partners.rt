// The pairs of a direction of `improve`: each active member of a's group with the first active member of b's group that has its cap.
// The groups are runs of the sorted rows at the front of the work slice (layout.rt); a member is active until it is replaced.
ghost use Rattle.std.specs.Prelude.{◌≡◌, cond, [], ℕ, ◌+◌, ◌*◌, ◌^◌, ◌≤◌, ◌<◌, ltb, eqb, length, drop};
ghost use Rattle.geometry.specs.Rank.{rank};
ghost use Rattle.mesh.specs.Words.{word_at, point_at};
ghost use Rattle.mesh.specs.inside.Rows.{first_at_least};
ghost use Rattle.mesh.specs.Complex.{mem};
ghost use Rattle.mesh.specs.Feature.{bits_of};
ghost use Rattle.mesh.specs.Group.{group_of};
ghost use Rattle.mesh.specs.inside.Group.{rank_words};
ghost use Rattle.mesh.specs.inside.Star.{written};
ghost use Rattle.repair.specs.Mesh.{Mesh};
ghost use Rattle.repair.specs.Improve.{State, cap_of, stratum_rule, active_group, partner};
ghost use Rattle.repair.specs.inside.Layout.{Stands, pairs_at, pairs_of, pairs_in};
ghost use Rattle.repair.specs.inside.improve.Round.{ReadsOf};
ghost use Rattle.repair.specs.inside.improve.Partners.{vertices_of, Ranked, members_of, active_in, active_of, IsGroup, only, pair_words, seconds, paired_with, is_new, Paired};

use crate::improve::inputs::Inputs;
use crate::layout::{RANK_WORDS, ROW_WORDS, Run, flags_at, pairs_at};
use geometry::bounds::{cap, rank};
use mesh::element::Pair;
use mesh::group::group_row;
use mesh::rows::{first_at_least, run_length};
use mesh::star::Index;
use mesh::words::{at, put};

// Whether a stratum has fewer than three bits.
fn has_few(x: u64) -> bool
    requires { x < 2 ^ 38 }
    ensures { result ≡ ltb (length (bits_of x)) 3 }
{
    u64::count_ones(x) < 3
}

// Whether e.a's stratum is inside e.b's and has fewer than three bits.
pub(crate) fn stratum_rule(given: &Inputs, e: Pair) -> bool
    ensures { (m : Mesh) → ReadsOf given.now m → result ≡ stratum_rule given.now.options m e.a e.b }
{
    let strata = given.strata();
    has_few(strata.of(e.a)) && strata.is_inside(e.a, e.b)
}

// The first of the sorted rows that is no earlier than v's rank.
fn group_start(work: &[u32], given: &Inputs, v: u32) -> usize
    ensures { result ≡ first_at_least given.now.index.vertices 7 (rank_words (rank (point_at (vertices_of given.now) v) given.now.options)) work.now }
{
    let r = rank(given.parameters.at(v), given.options);
    let row = group_row(r, v);
    let n = given.index.vertices as usize;
    first_at_least(work, n, ROW_WORDS, &row[..RANK_WORDS])
}

// The rows of v's group.
fn group_of(work: &[u32], given: &Inputs, v: u32) -> Run
    requires { Ranked given.now.options (vertices_of given.now) given.now.index work.now × (v < given.now.index.vertices) }
    ensures { IsGroup given.now.index work.now result × (members_of work.now result ≡ group_of given.now.options (vertices_of given.now) v) }
{
    let n = given.index.vertices as usize;
    let first = group_start(work, given, v);
    Run {
        first,
        size: run_length(work, first, n, ROW_WORDS, RANK_WORDS),
    }
}

// The vertex of row i.
fn member(work: &[u32], i: usize) -> u32
    requires { i < 4096 }
    ensures { result ≡ word_at work.now (7 * i + 6) }
{
    at(work, ROW_WORDS * i + RANK_WORDS)
}

// Whether v is not replaced.
pub(crate) fn is_active(work: &[u32], x: Index, v: u32) -> bool
    ensures { result ≡ active_in x work.now v }
{
    at(work, flags_at(x) + (v as usize)) == 0
}

// The cap of the vertex v.
fn cap_at(given: &Inputs, v: u32) -> u64
    ensures { result ≡ cap_of given.now.options (only (vertices_of given.now)) v }
{
    cap(given.parameters.at(v), given.options.bounds)
}

// The first active member of the group g with v's cap.
fn find_partner(work: &[u32], given: &Inputs, v: u32, g: Run) -> Option<u32>
    requires { IsGroup given.now.index work.now g }
    ensures { partner given.now.options (only (vertices_of given.now)) v (active_of given.now.index work.now g) ≡ paired_with v result }
{
    let c = cap_at(given, v);
    let end = g.first + g.size;
    for i in g.first..end {
        let u = member(work, i);
        if is_active(work, given.index, u) && c == cap_at(given, u) {
            return Some(u);
        }
    }
    None
}

// Whether u is the second of one of the k pairs at p.
fn is_second(work: &[u32], p: usize, k: usize, u: u32) -> bool
    requires { p + 2 * k ≤ length work.now }
    ensures { result ≡ mem u (seconds (pairs_of k (drop p work.now))) }
{
    (0..k).any(|i| u == at(work, p + 2 * i + 1))
}

// Writes v with its partner of the group g behind the k pairs; nothing, and false, where it has none or one that is in a pair.
fn put_pair(work: &mut [u32], given: &Inputs, v: u32, g: Run, k: usize) -> bool
    requires { IsGroup given.now.index work.old g × (pairs_at given.now.index + 2 * k + 2 ≤ length work.old) }
    ensures { (result ≡ is_new (pairs_in given.now.index k work.old) (partner given.now.options (only (vertices_of given.now)) v (active_of given.now.index work.old g)))
        × (work.new ≡ written work.old (pairs_at given.now.index + 2 * k) (pair_words (cond result (partner given.now.options (only (vertices_of given.now)) v (active_of given.now.index work.old g)) []))) }
{
    let Some(u) = find_partner(work, given, v, g) else {
        return false;
    };
    let p = pairs_at(given.index);
    if is_second(work, p, k, u) {
        return false;
    }
    put(work, p + 2 * k, v);
    put(work, p + 2 * k + 1, u);
    true
}

// Whether the group g has k active members.
fn has_active(work: &[u32], x: Index, g: Run, k: usize) -> bool
    requires { IsGroup x work.now g }
    ensures { result ≡ eqb k (length (active_of x work.now g)) }
{
    let end = g.first + g.size;
    let mut more = k;
    for i in g.first..end {
        if !is_active(work, x, member(work, i)) {
            continue;
        }
        if more == 0 {
            return false;
        }
        more -= 1;
    }
    more == 0
}

// Pairs the active members of the group f with those of g, and gives how many pairs, where they pair off.
fn pair_groups(work: &mut [u32], given: &Inputs, f: Run, g: Run) -> Option<usize>
    requires { IsGroup given.now.index work.old f × IsGroup given.now.index work.old g × (given.now.index.slots ≡ 10 * given.now.index.vertices) × (given.now.index.slots ≤ length work.old) }
    ensures { Paired given.now.options (only (vertices_of given.now)) given.now.index (active_of given.now.index work.old f) (active_of given.now.index work.old g) work.old work.new result }
{
    let x = given.index;
    let end = f.first + f.size;
    let mut k = 0;
    for i in f.first..end {
        let v = member(work, i);
        if !is_active(work, x, v) {
            continue;
        }
        if !put_pair(work, given, v, g, k) {
            return None;
        }
        k += 1;
    }
    if has_active(work, x, g, k) {
        Some(k)
    } else {
        None
    }
}

// Writes the pairs by which the group of e.a goes into that of e.b to the pairs' area, and gives how many, where they pair off.
pub(crate) fn find_pairs(work: &mut [u32], given: &Inputs, e: Pair) -> Option<usize>
    requires { Ranked given.now.options (vertices_of given.now) given.now.index work.old × (e.a < given.now.index.vertices) × (e.b < given.now.index.vertices) }
    ensures { (m : Mesh) (n : ℕ) (s : State) → m.parameters ≡ vertices_of given.now → Stands given.now.options m given.now.index n work.old s
        → Paired given.now.options m given.now.index (active_group given.now.options m s.replaced e.a) (active_group given.now.options m s.replaced e.b) work.old work.new result }
{
    let f = group_of(work, given, e.a);
    let g = group_of(work, given, e.b);
    pair_groups(work, given, f, g)
}
