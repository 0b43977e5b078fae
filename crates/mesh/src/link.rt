// Whether an edge a b may be collapsed as far as links and features go: the three tests of `link_ok`.
//
// An area for n elements has 88 n words. First the boundary: the elements, 4 n words; the keys of the faces, 4 n rows of 3 words, sorted
// with the words behind them as scratch; where the elements are many they are first face rows of 4 words, ordered by counting
// (src/faces.rt). Behind the keys three rows of 3 words for each boundary face about the edge, at most 36 n words; as many of scratch.
// Then the interior: the elements; seven rows of 4 words an element; as many words of scratch; where the elements are many, a table of the
// marks at vertices, by which rows are left out (specs/inside/LinkTable.antt). A row is a simplex in rising order, its last vertex repeated
// up to the row's width, and a mark: 1 from a simplex with a only, 2 with b only, 3 with both, 0 with neither.
//
// Kept by hand: `has_mark`, `run_meets`, `links_meet`, `feature_run`, `features_pass`, `put_face`, `face_in`, `drop_numbers` and `put_told`
// take words with a place, a count and a width of rows, since the rows of the tests are offsets of one lent slice (no heap).
//
// Kept by hand: `all_four_different`, `link_fits` and `Strata::link_ok_in` take the words and the number of elements, since the room of an
// area is tested there and the area is lent so; behind them both are an `Area`.
mod area;
mod boundary;
mod ends;
mod features;
mod interior;
mod marks;
mod table;

ghost use Rattle.std.specs.Prelude.{◌≡◌, ◌&&◌, length};
ghost use Rattle.mesh.specs.Complex.{sub};
ghost use Rattle.mesh.specs.Tests.{every, nodup};
ghost use Rattle.mesh.specs.Element.{vertices_of, tets};
ghost use Rattle.mesh.specs.Link.{boundary_about, boundary_ok};
ghost use Rattle.mesh.specs.Feature.{bits_of, feature_ok, link_ok, strata_in, link_fits, link_ok_in};
ghost use Rattle.mesh.specs.Manifold.{Tested};
ghost use Rattle.mesh.specs.inside.LinkAreas.{tets_of, Proper, Kept};

use crate::element::{Pair, four_different};
use crate::link::area::Area;
use crate::link::boundary::{boundary_ok_in, list_boundary};
use crate::link::ends::Ends;
use crate::link::features::feature_ok_in;
use crate::link::interior::interior_ok_in;
use crate::strata::Strata;
use crate::vertex::tet_at;
use crate::words::clear_from;

// The second and the third test.
fn surface_ok(area: &mut Area<'_>, e: Ends) -> bool
    requires { Proper area.old }
    ensures { (result ≡ (boundary_ok e.entry.a e.entry.b (tets_of area.old)
        && feature_ok (strata_in e.entry.strata) e.entry.a e.entry.b (boundary_about e.entry.a e.entry.b (tets_of area.old)))) × Kept area.old area.new }
{
    let m = list_boundary(area, Pair { a: e.a, b: e.b });
    boundary_ok_in(area, m) && feature_ok_in(area, m, e)
}

// The three tests of `link_ok`. The interior comes last: its rows are the most.
fn edge_ok(area: &mut Area<'_>, e: Ends) -> bool
    requires { Proper area.old }
    ensures { (result ≡ link_ok (strata_in e.entry.strata) e.entry.a e.entry.b (tets_of area.old)) × Kept area.old area.new }
{
    surface_ok(area, e) && interior_ok_in(area, Pair { a: e.a, b: e.b })
}

// Whether the bits of a are b's, and the edge passes `link_ok`.
fn edge_passes(area: &mut Area<'_>, a: u32, b: u32, strata: Strata) -> bool
    requires { Proper area.old }
    ensures { (result ≡ (sub (bits_of (strata_in strata.entry a)) (bits_of (strata_in strata.entry b))
        && link_ok (strata_in strata.entry) a b (tets_of area.old))) × Kept area.old area.new }
{
    a == b || strata.is_inside(a, b) && edge_ok(area, Ends { a, b, strata })
}

// Whether each of the first n elements has four different vertices.
fn all_four_different(area: &[u32], n: usize) -> bool
    ensures { result ≡ every (λ t. nodup (vertices_of t)) (tets n area.now) }
{
    (0..n).all(|e| four_different(tet_at(area, e)))
}

// Whether n is at most 16,384, an area for n elements fits, and each element has four different vertices.
// Kept by hand: no plainer with `fits`, whose limit is another.
fn link_fits(area: &[u32], n: usize) -> bool
    ensures { result ≡ link_fits n area.now }
{
    n <= 16384 && 88 * n <= area.len() && all_four_different(area, n)
}

impl<'a> Strata<'a> {
    // Whether the bits of a's stratum are b's and the edge a b passes `link_ok` among the n elements at the front of the area. The elements
    // are kept, and behind them all is 0. No where the area is too small or an element has a vertex twice, and then it is as it was.
    pub fn link_ok_in(self, area: &mut [u32], n: usize, a: u32, b: u32) -> bool
        ensures { ◌≡◌ {A = Tested} (record { answer = result; area = area.new })
            (link_ok_in (strata_in self.entry) a b n area.old) }
    {
        if !link_fits(area, n) {
            return false;
        }
        let ok = edge_passes(&mut Area { words: area, n }, a, b, self);
        clear_from(area, 4 * n);
        ok
    }
}
