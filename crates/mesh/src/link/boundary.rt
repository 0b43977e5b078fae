// The boundary link test: the faces that stand alone about the edge, and their rows.
ghost use Rattle.std.specs.Prelude.{◌≡◌, ℕ, ◌+◌, ◌*◌, ◌≤◌, map, length, take, drop};
ghost use Rattle.std.proofs.Math.Seq.{paste};
ghost use Rattle.mesh.specs.Words.{flat};
ghost use Rattle.mesh.specs.Sort.{sort};
ghost use Rattle.mesh.specs.inside.Rows.{rows, le_row};
ghost use Rattle.mesh.specs.Link.{boundary_ok};
ghost use Rattle.mesh.specs.inside.Manifold.{KeptBelow};
ghost use Rattle.mesh.specs.inside.Faces.{SortedKeys, TriedKeys};
ghost use Rattle.mesh.specs.inside.LinkAreas.{tets_of, Same, Kept, AloneRows, EdgeRows};
ghost use Rattle.mesh.specs.inside.LinkRows.{beside, link_pair, face_rows, face_in, alone_about, alone_faces, rows_of_faces};

use crate::element::{Pair, Triple};
use crate::euler::list_triangles;
use crate::faces::order_faces;
use crate::link::area::Area;
use crate::link::marks::links_meet;
use crate::rows::{put_row, sort_from};
use crate::runs::Runs;
use crate::words::copy_words;

// The vertices of a face but v.
// Kept by hand: as `opposite`.
#[tactic(auto, unfolding(crate::specs::inside::LinkRows::beside))]
fn beside(f: Triple, v: u32) -> Pair
    ensures { result ≡ beside f v }
{
    let Triple { a, b, c } = f;
    if v == a {
        Pair { a: b, b: c }
    } else if v == b {
        Pair { a, b: c }
    } else {
        Pair { a, b }
    }
}

impl Pair {
    // The edge of a face opposite the end that the face is taken at.
    fn link_pair(self, f: Triple) -> Pair
        ensures { result ≡ link_pair self.a self.b f }
    {
        beside(f, self.apex(&f.corners()))
    }
}

// Writes the rows of a face at p.
#[tactic(auto, unfolding(crate::specs::Words::flat))]
fn put_face(area: &mut [u32], p: usize, f: Triple, ab: Pair)
    requires { p + 9 ≤ length area.old }
    ensures { area.new ≡ paste area.old p (flat (face_rows ab.a ab.b f)) 9 }
{
    let e = ab.link_pair(f);
    let m = ab.mark(&f.corners());
    put_row(area, p, &[e.b, e.b, m, e.a, e.a, m, e.a, e.b, m]);
}

// The face of the three words at p.
fn face_in(area: &[u32], p: usize) -> Triple
    requires { p + 3 ≤ length area.now }
    ensures { result ≡ face_in (drop p area.now) }
{
    Triple {
        a: area[p],
        b: area[p + 1],
        c: area[p + 2],
    }
}

// Leaves of the m rows of 4 words from p on their first three words, one row behind the other.
fn drop_numbers(area: &mut [u32], p: usize, m: usize)
    requires { (p ≤ 65536) × (m ≤ 65536) × (p + 4 * m ≤ length area.old) }
    ensures { (rows 3 m (drop p area.new) ≡ map (take 3) (rows 4 m (drop p area.old))) × KeptBelow p area.old area.new }
{
    for i in 0..m {
        copy_words(area, p + 4 * i, p + 3 * i, 3);
    }
}

// Tries to sort the keys of the faces of many elements by counting, and gives whether that went well.
fn counted_keys(area: &mut Area<'_>) -> bool
    ensures { Same area.old area.new × TriedKeys area.old.n area.old.words.now area.new.words.now result }
{
    let n = area.n;
    if n < 256 || !order_faces(area.words, n) {
        return false;
    }
    drop_numbers(area.words, 4 * n, 4 * n);
    true
}

// Writes the sorted keys of the faces of the elements behind them.
fn sorted_keys(area: &mut Area<'_>)
    ensures { Same area.old area.new × SortedKeys area.old.n area.old.words.now area.new.words.now }
{
    if counted_keys(area) {
        return;
    }
    let n = area.n;
    list_triangles(area.words, n);
    sort_from(area.words, 4 * n, 4 * n, 3);
}

// Whether k equal keys are one face with a or b.
fn alone_about(k: usize, f: Triple, ab: Pair) -> bool
    ensures { result ≡ alone_about ab.a ab.b k f }
{
    k == 1 && 0 < ab.mark(&f.corners())
}

// Writes the rows of the boundary faces about the edge, from the sorted keys behind the elements, behind those keys. Gives how many faces.
fn list_alone(area: &mut Area<'_>, ab: Pair) -> usize
    ensures { Same area.old area.new × AloneRows ab.a ab.b area.old.n area.old.words.now area.new.words.now result }
{
    let n = area.n;
    let start = area.boundary_start();
    let words = &mut *area.words;
    let (front, rest) = words.split_at_mut(start);
    let mut c = 0;
    for (i, k) in Runs::new(front, 4 * n, 4 * n, 3, 3) {
        let f = face_in(front, i);
        if alone_about(k, f, ab) {
            put_face(rest, 9 * c, f, ab);
            c += 1;
        }
    }
    c
}

// The sorted rows of the boundary faces about the edge behind the first 16 words an element, and how many rows.
pub(crate) fn list_boundary(area: &mut Area<'_>, ab: Pair) -> usize
    ensures { (rows 3 result (drop (16 * area.old.n) area.new.words.now) ≡ sort le_row (rows_of_faces ab.a ab.b (alone_faces ab.a ab.b (tets_of area.old)))) × (result ≤ 12 * area.old.n) × Kept area.old area.new }
{
    sorted_keys(area);
    let c = 3 * list_alone(area, ab);
    let start = area.boundary_start();
    sort_from(area.words, start, c, 3);
    c
}

// Second test: "boundary links too", from the m sorted rows behind the first 16 words an element.
pub(crate) fn boundary_ok_in(area: &Area<'_>, m: usize) -> bool
    requires { m ≤ 12 * area.now.n }
    ensures { (a b : ℕ) → EdgeRows a b m area.now → result ≡ boundary_ok a b (tets_of area.now) }
{
    links_meet(area.words, area.boundary_start(), m, 2)
}
