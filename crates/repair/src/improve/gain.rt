// What a collapse gains.
//
// Kept by hand: n elements from p on, in tally_images and gains_at as in quality.rt. A slice of them has 4 n words, which each contract would
// have to say in place of the bound; no plainer.
ghost use Rattle.std.specs.Prelude.{◌≡◌, ◌+◌, ◌*◌, ◌≤◌, length, drop};
ghost use Rattle.mesh.specs.Words.{points_in};
ghost use Rattle.mesh.specs.Element.{tets};
ghost use Rattle.mesh.specs.Measure.{measure};
ghost use Rattle.repair.specs.Mesh.{Mesh};
ghost use Rattle.repair.specs.Improve.{State, image, image_of, about, collapsed, gains};
ghost use Rattle.repair.specs.inside.Layout.{Pairs, Same, pairs_at, pairs_in};
ghost use Rattle.repair.specs.inside.improve.Round.{ReadsOf, StandsOf, ReadyOf};
ghost use Rattle.repair.specs.inside.Quality.{started, all_judged};

use crate::improve::inputs::Inputs;
use crate::layout::pairs_at;
use crate::quality::{Tally, element_from};
use geometry::float::smaller;
use mesh::element::Tet;
use mesh::star::Index;
use mesh::words::at;

// The vertex that v goes into by the k pairs in the pairs' area, v itself where it is in no pair.
fn image(work: &[u32], x: Index, k: usize, v: u32) -> u32
    requires { pairs_at x + 2 * k ≤ length work.now }
    ensures { result ≡ image (pairs_in x k work.now) v }
{
    let p = pairs_at(x);
    for i in 0..k {
        if at(work, p + 2 * i) == v {
            return at(work, p + 2 * i + 1);
        }
    }
    v
}

// The element t with the images of its vertices.
fn image_of(work: &[u32], x: Index, k: usize, t: Tet) -> Tet
    requires { pairs_at x + 2 * k ≤ length work.now }
    ensures { result ≡ image_of (image (pairs_in x k work.now)) t }
{
    let [a, b, c, d] = [t.a, t.b, t.c, t.d].map(|v| image(work, x, k, v));
    Tet { a, b, c, d }
}

// The images of the n elements that stand at p, counted; nothing where one is not allowed.
fn tally_images(
    work: &[u32],
    given: &Inputs,
    k: usize,
    p: usize,
    n: usize,
    limit: f64,
) -> Option<Tally>
    requires { (n ≤ 16384) × (p + 4 * n ≤ length work.now) × (pairs_at given.now.index + 2 * k ≤ length work.now) }
    ensures { result ≡ all_judged (measure (points_in given.now.points)) limit started (collapsed (pairs_in given.now.index k work.now) (tets n (drop p work.now))) }
{
    let mut r = Tally::start();
    for i in 0..n {
        let t = element_from(work, p + 4 * i);
        let u = image_of(work, given.index, k, t);
        r = r.judged(given.points, limit, u)?;
    }
    Some(r)
}

// Whether the collapse gains, where the n elements about the pairs stand at p.
fn gains_at(work: &[u32], given: &Inputs, k: usize, p: usize, n: usize) -> bool
    requires { (n ≤ 16384) × (p + 4 * n ≤ length work.now) × (pairs_at given.now.index + 2 * k ≤ length work.now) }
    ensures { result ≡ gains (measure (points_in given.now.points)) (tets n (drop p work.now)) (collapsed (pairs_in given.now.index k work.now) (tets n (drop p work.now))) }
{
    let old = Tally::of_elements(work, p, n, given.points);
    let limit = smaller(old.lowest, 0.1);
    let Some(new) = tally_images(work, given, k, p, n, limit) else {
        return false;
    };
    new.bad < old.bad || old.lowest * 1.001 < new.lowest
}

// Whether the collapse of the k pairs in the pairs' area gains: no element worse than allowed, and fewer bad ones or a higher lowest score.
pub(crate) fn gains(work: &mut [u32], given: &Inputs, k: usize) -> bool
    requires { ReadyOf given.now work.old × Pairs given.now.index.vertices (pairs_in given.now.index k work.old) }
    ensures value { (m : Mesh) (s : State) → ReadsOf given.now m → StandsOf given.now m work.old s
        → result ≡ gains (measure m.points) (about (pairs_in given.now.index k work.old) s.elements) (collapsed (pairs_in given.now.index k work.old) (about (pairs_in given.now.index k work.old) s.elements)) }
    ensures same { Same work.old work.new given.now.index.area (length work.old) }
{
    let x = given.index;
    let c = x.star_about(work, pairs_at(x), 2 * k, 1);
    x.elements_at(work, c);
    gains_at(work, given, k, x.area + c, c)
}
