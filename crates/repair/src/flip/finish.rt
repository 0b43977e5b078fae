// The end of `flip`: the boundary of the elements in an area, and its keys beside those of the surface given.
//
// Kept by hand: k elements, c triples and g given ones as numbers beside the area, whose parts they measure. Written as a struct of the
// area, the surface given, k and g, with the room as ghost fields and the last three functions before `commit_flip` as methods, the file
// has 168 lines in place of 163, and each of the methods needs one clause more, that its area is still the one lent; no plainer.
ghost use Rattle.std.specs.Prelude.{◌≡◌, true, List, map, ℕ, ◌+◌, ◌*◌, ◌≤◌, length, take, drop};
ghost use Rattle.mesh.specs.Sort.{sort};
ghost use Rattle.mesh.specs.Element.{key_of, tets, triples};
ghost use Rattle.mesh.specs.Boundary.{le_triple};
ghost use Rattle.mesh.specs.inside.Surface.{area_fits};
ghost use Rattle.repair.specs.Flip.{sorted_keys, same_triples};
ghost use Rattle.repair.specs.inside.Layout.{Same};
ghost use Rattle.repair.specs.inside.flip.Layout.{triple_at, with_triple};
ghost use Rattle.repair.specs.inside.flip.Finish.{keyed_outcome, SurfaceEnded, EndRoom, flip_end};
ghost use Rattle.mesh.specs.Surface.{Surface, outcome_of};
ghost use Rattle.repair.specs.Answer.{answer_of};
ghost use Rattle.repair.specs.Step.{Answer, over};

use crate::answer::Made;
use crate::flip::layout::triple_from;
use mesh::boundary::boundary_in;
use mesh::element::face_key;
use mesh::intake::Sizes;
use mesh::refusal::Refusal;
use mesh::rows::sort_rows;
use mesh::words::copy_part;

// Writes the key of the triple at i to d.
fn put_key(area: &mut [u32], i: usize, d: usize)
    requires { (i + 3 ≤ length area.old) × (d + 3 ≤ length area.old) }
    ensures { area.new ≡ with_triple (key_of (triple_at area.old i)) d area.old }
{
    let g = face_key(triple_from(area, i));
    area[d] = g.a;
    area[d + 1] = g.b;
    area[d + 2] = g.c;
}

// Writes the keys of the c triples from i on to the words from d on, which lie behind them.
fn put_keys(area: &mut [u32], i: usize, d: usize, c: usize)
    requires { (c ≤ 131072) × (i + 3 * c ≤ d) × (d + 3 * c ≤ length area.old) }
    ensures { (triples c (drop d area.new) ≡ map key_of (triples c (drop i area.old))) × Same area.old area.new d (d + 3 * c) }
{
    for j in 0..c {
        put_key(area, i + 3 * j, d + 3 * j);
    }
}

// Puts the c triples from p on in order. As many words behind them are scratch.
fn sort_triples(area: &mut [u32], p: usize, c: usize)
    requires { (c ≤ 131072) × (p + 6 * c ≤ length area.old) }
    ensures { (triples c (drop p area.new) ≡ sort le_triple (triples c (drop p area.old))) × Same area.old area.new p (p + 6 * c) }
{
    let e = p + 6 * c;
    sort_rows(&mut area[p..e], c, 3);
}

// Writes the keys of the c triples from i on, in order, to the words from d on, which lie behind them. As many words behind the keys are
// scratch.
fn put_sorted_keys(area: &mut [u32], i: usize, d: usize, c: usize)
    requires { (c ≤ 131072) × (i + 3 * c ≤ d) × (d + 6 * c ≤ length area.old) }
    ensures { (triples c (drop d area.new) ≡ sorted_keys (triples c (drop i area.old))) × Same area.old area.new d (d + 6 * c) }
{
    put_keys(area, i, d, c);
    sort_triples(area, d, c);
}

// Whether the c triples from p on are those from q on.
fn same_triples(area: &[u32], p: usize, q: usize, c: usize) -> bool
    requires { (p + 3 * c ≤ length area.now) × (q + 3 * c ≤ length area.now) }
    ensures { result ≡ same_triples (triples c (drop p area.now)) (triples c (drop q area.now)) }
{
    area[p..p + 3 * c] == area[q..q + 3 * c]
}

// Whether the c triples behind the k elements at the front have the keys of the g triples given. The words from 36 k + 3 g on are scratch.
fn same_surface(area: &mut [u32], k: usize, c: usize, surface: &[u32], g: usize) -> bool
    requires { (k ≤ 65536) × (g ≤ 65536) × (36 * k + 18 * g ≤ length area.old) × (3 * g ≤ length surface.now) }
    ensures value { result ≡ same_triples (sorted_keys (triples c (drop (4 * k) area.old))) (sorted_keys (triples g surface.now)) }
    ensures same { Same area.old area.new (36 * k + 3 * g) (length area.old) }
{
    if c != g {
        return false;
    }
    let p = 36 * k + 3 * g;
    let r = p + 6 * g;
    let q = r + 3 * g;
    put_sorted_keys(area, 4 * k, p, g);
    copy_part(surface, 0, area, r, 3 * g);
    put_sorted_keys(area, r, q, g);
    same_triples(area, p, q, g)
}

// The surface's c triples behind the k elements, refused where their keys are not those of the g triples given.
fn test_keys(
    area: &mut [u32],
    k: usize,
    c: usize,
    surface: &[u32],
    g: usize,
) -> Result<usize, Refusal>
    requires { (k ≤ 65536) × (g ≤ 65536) × (36 * k + 18 * g ≤ length area.old) × (3 * g ≤ length surface.now) }
    ensures value { outcome_of result ≡ keyed_outcome k g (Surface c) area.old surface.now }
    ensures same { Same area.old area.new (36 * k + 3 * g) (length area.old) }
{
    if same_surface(area, k, c, surface, g) {
        Ok(c)
    } else {
        Err(Refusal::Changed)
    }
}

// The boundary of the k elements at the front, its triples behind them; refused by the first bad key, or where its keys are not those of the
// g triples given.
pub(crate) fn flip_surface(
    area: &mut [u32],
    k: usize,
    surface: &[u32],
    g: usize,
) -> Result<usize, Refusal>
    requires { (area_fits k (36 * k) ≡ true) × (k ≤ 65536) × (g ≤ 65536) × (36 * k + 18 * g ≤ length area.old) × (3 * g ≤ length surface.now) }
    ensures { SurfaceEnded k g surface.now area.old area.new (outcome_of result) }
{
    let e = 36 * k;
    let c = boundary_in(&mut area[0..e], k)?;
    test_keys(area, k, c, surface, g)
}

// Puts the k elements at the front of the area and the c triples behind them over the first of the buffers.
fn commit_flip(area: &[u32], k: usize, c: usize, elements: &mut [u32], surface: &mut [u32])
    requires { (k ≤ 65536) × (c ≤ 262144) × (4 * k + 3 * c ≤ length area.now) × (4 * k ≤ length elements.old) × (3 * c ≤ length surface.old) }
    ensures { (elements.new ≡ over (take (4 * k) area.now) elements.old)
        × (surface.new ≡ over (take (3 * c) (drop (4 * k) area.now)) surface.old) }
{
    copy_part(area, 0, elements, 0, 4 * k);
    copy_part(area, 4 * k, surface, 0, 3 * c);
}

// The end of `flip` for the k elements at the front of the area: done with the count and the new elements and surface in the buffers, or
// refused and the buffers as they were.
pub(crate) fn finish_flip(
    sizes: Sizes,
    count: usize,
    k: usize,
    elements: &mut [u32],
    surface: &mut [u32],
    area: &mut [u32],
) -> Result<Made, Refusal>
    requires { EndRoom k sizes.triples (length elements.old) (length surface.old) (length area.old) }
    ensures { ◌≡◌ {A = Answer × List ℕ × List ℕ} (answer_of result, elements.new, surface.new)
        (flip_end count sizes.vertices (triples sizes.triples surface.old) (tets k area.old) elements.old surface.old) }
{
    let c = flip_surface(area, k, surface, sizes.triples)?;
    commit_flip(area, k, c, elements, surface);
    Ok(Made {
        count,
        sizes: Sizes {
            elements: k,
            triples: c,
            ..sizes
        },
    })
}
