// The elements about a group, measured from the points as they are and as they would be with the group moved.
ghost use Rattle.std.specs.Prelude.{◌≡◌, true, false, MatchOption};
ghost use Rattle.mesh.specs.Words.{point_at, points_of};
ghost use Rattle.mesh.specs.Measure.{measure, lowest_of, measured_of};
ghost use Rattle.repair.specs.inside.smooth.Site.{about, trial_points, beats};

use crate::smooth::candidates::kept_on;
use crate::smooth::map::mapped;
use crate::smooth::site::Site;
use geometry::bounds::Options;
use geometry::float::smaller;
use geometry::point::Point;
use mesh::element::Tet;
use mesh::measure::measured_at;
use mesh::vertex::{Points, tet_at};
use mesh::words::at;

// The lowest score about the group as it is.
pub(crate) fn lowest_about(points: &[f64], elements: &[u32], work: &[u32], s: Site) -> f64
    ensures { result ≡ lowest_of (measure (points_of s.vertices points.now)) (about elements.now work.now s.area s.about) }
{
    let points = Points::new(points, s.vertices);
    let mut low = 1.0;
    for i in s.area..s.area + s.about {
        let t = tet_at(elements, at(work, i) as usize);
        low = smaller(low, points.score(t));
    }
    low
}

// What a trial reads: the mesh as it is, and the work with a group's site.
#[derive(Clone, Copy)]
pub(crate) struct View<'a> {
    pub options: Options,
    pub parameters: &'a [f64],
    pub points: &'a [f64],
    pub elements: &'a [u32],
    pub work: &'a [u32],
    pub site: Site,
}

impl<'a> View<'a> {
    // The point of the vertex v with the group moved to p.
    fn trial_point(self, p: Point, v: u32) -> Point
        ensures { result ≡ point_at (trial_points self.entry.options self.entry.parameters.now self.entry.points.now self.entry.work.now self.entry.site p) v }
    {
        let s = self.site;
        if s.vertices <= v as usize || !s.has(self.work, v) {
            return Points::new(self.points, s.vertices).at(v);
        }
        let q = Points::new(self.parameters, s.vertices).at(v);
        mapped(kept_on(self.options, q, p))
    }

    // The score of an element with the group moved to p, where its determinant is above 0.
    fn measured(self, p: Point, t: Tet) -> Option<f64>
        ensures { result ≡ measured_of (trial_points self.entry.options self.entry.parameters.now self.entry.points.now self.entry.work.now self.entry.site p) t }
    {
        let a = self.trial_point(p, t.a);
        let b = self.trial_point(p, t.b);
        let c = self.trial_point(p, t.c);
        let d = self.trial_point(p, t.d);
        measured_at(a, b, c, d)
    }

    // The lowest score about the group with it moved to p, if it is above `bar` and every determinant is above 0. It stops at a
    // determinant that is not above 0, and where the lowest score so far is not above `bar`.
    // Kept by hand: the loop ends early at two tests; `try_fold` is no plainer, as its closure would give an option at each of them.
    pub(crate) fn try_point(self, p: Point, bar: f64) -> Option<f64>
        ensures { let ps = trial_points self.entry.options self.entry.parameters.now self.entry.points.now self.entry.work.now self.entry.site p in
            let ts = about self.entry.elements.now self.entry.work.now self.entry.site.area self.entry.site.about in
            MatchOption result (beats ts ps bar ≡ false) (λ low. (beats ts ps bar ≡ true) × (low ≡ lowest_of (measure ps) ts)) }
    {
        let s = self.site;
        let mut low = 1.0;
        for i in s.area..s.area + s.about {
            let t = tet_at(self.elements, at(self.work, i) as usize);
            let score = self.measured(p, t)?;
            low = smaller(low, score);
            if !(bar < low) {
                return None;
            }
        }
        if !(bar < low) {
            return None;
        }
        Some(low)
    }
}
