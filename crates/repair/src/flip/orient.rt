// The elements that a flip replaces and those that it makes, two or three of them: oriented, measured and compared.
//
// Kept by hand: `length ≤ 3` of a slice in the contracts of tally, is_accepted, replace and others. An array type would say it only with a
// const parameter in each of them, for two and for three; no plainer.
//
// Kept by hand: functions that take the points first. `Points` is mesh's, so methods would need a trait here, with each signature and
// contract twice, in the trait and in its one impl; no plainer.
ghost use Rattle.std.specs.Prelude.{◌≡◌, ◌≤◌, map, length};
ghost use Rattle.mesh.specs.Words.{points_in};
ghost use Rattle.mesh.specs.Tests.{every};
ghost use Rattle.mesh.specs.Measure.{measure, volume_of};
ghost use Rattle.repair.specs.Flip.{oriented, accepted};
ghost use Rattle.repair.specs.inside.Quality.{started, tallied};

use crate::quality::Tally;
use geometry::float::absolute;
use mesh::element::Tet;
use mesh::vertex::Points;

// The element with positions 2 and 3 exchanged where its determinant is below 0.
fn orient_one(points: Points, t: Tet) -> Tet
    ensures { result ≡ oriented (measure (points_in points.entry)) t }
{
    if points.is_below(t) {
        Tet {
            c: t.d,
            d: t.c,
            ..t
        }
    } else {
        t
    }
}

// Orients each element.
pub(crate) fn orient(points: Points, ts: &mut [Tet])
    ensures { ts.new ≡ map (oriented (measure (points_in points.entry))) ts.old }
{
    for t in ts.iter_mut() {
        *t = orient_one(points, *t);
    }
}

// Whether every determinant is above 0.
fn all_above(points: Points, ts: &[Tet]) -> bool
    ensures { result ≡ every (measure (points_in points.entry)).above ts.now }
{
    ts.iter().all(|t| points.is_above(*t))
}

// The lowest score, and how many are bad.
fn tally(points: Points, ts: &[Tet]) -> Tally
    requires { length ts.now ≤ 3 }
    ensures { result ≡ tallied (measure (points_in points.entry)) started ts.now }
{
    let mut r = Tally::start();
    for t in ts {
        r = r.counted(points.score(*t));
    }
    r
}

// The sum of the determinants, left to right.
fn volume(points: Points, ts: &[Tet]) -> f64
    ensures { result ≡ volume_of (points_in points.entry) ts.now }
{
    ts.iter().fold(-0.0, |sum, t| sum + points.determinant(*t))
}

// Whether the new elements fill the volume of the old ones within 1e-10 of it.
fn same_volume(points: Points, old: &[Tet], new: &[Tet]) -> bool
    ensures { result ≡ (measure (points_in points.entry)).same_volume old.now new.now }
{
    let m = volume(points, old);
    let n = volume(points, new);
    absolute(n - m) <= m * 1e-10
}

// Whether the new elements may take the place of the old ones: every determinant above 0, a lowest score higher by more than 1e-10, no
// more bad ones, and the same volume.
pub(crate) fn is_accepted(points: Points, old: &[Tet], new: &[Tet]) -> bool
    requires { (length old.now ≤ 3) × (length new.now ≤ 3) }
    ensures { result ≡ accepted (measure (points_in points.entry)) old.now new.now }
{
    if !all_above(points, new) {
        return false;
    }
    let m = tally(points, old);
    let n = tally(points, new);
    m.lowest + 1e-10 < n.lowest && n.bad <= m.bad && same_volume(points, old, new)
}
