// The best of the candidates for a group.
ghost use Rattle.std.specs.Prelude.{◌≡◌};
ghost use Rattle.repair.specs.Smooth.{chosen, best_of};
ghost use Rattle.repair.specs.Project.{project};
ghost use Rattle.repair.specs.Step.{regions_in};
ghost use Rattle.repair.specs.inside.smooth.Site.{members, about, state_of, best_in, permitted, compared, none_yet, first_of, start_list};

use crate::project::fields::Fields;
use crate::project::project;
use crate::smooth::candidates::{allowed, candidates};
use crate::smooth::regions::Regions;
use crate::smooth::trial_scores::View;
use geometry::bounds::{Options, spacing};
use geometry::point::Point;

// The lowest score with the best so far, and its point: none where no candidate was better than the group as it is.
#[derive(Clone, Copy)]
pub(crate) struct Best {
    pub lowest: f64,
    pub point: Option<Point>,
}

// What the candidates start from: the first vertex, as it is and where hi counts as lo; how many neighbours it has, and their mean.
// Kept by hand: tried with an option for the mean and the candidates in two arrays, with `any` in `Site::has` and `fold` in `lowest_about` and
// `mean_of`; it misses the speed bar, `smooth` being 3 to 6 % slower.
#[derive(Clone, Copy)]
pub(crate) struct Start {
    pub original: Point,
    pub origin: Point,
    pub near: usize,
    pub mean: Point,
}

// The candidate c once it is projected onto the active fields, if it may be taken.
fn permitted(o: Options, regions: Regions, origin: Point, active: Fields, c: Point) -> Option<Point>
    ensures { result ≡ permitted o regions.entry.fields.list.now (regions_in regions.entry.masks) origin active.entry.list.now (project o.bounds origin active.entry.list.now c) }
{
    let p = project(o.bounds, origin, active, c)?;
    if !allowed(o, regions, origin, active, p) {
        return None;
    }
    Some(p)
}

// The better of the best so far and a candidate that may be taken: the candidate where its lowest score is higher by more than 1e-10.
fn try_candidate(x: View, best: Best, candidate: Option<Point>) -> Best
    ensures { best_in result ≡ compared x.entry.options (about x.entry.elements.now x.entry.work.now x.entry.site.area x.entry.site.about)
        (state_of x.entry.site.vertices x.entry.parameters.now x.entry.points.now 0) (members x.entry.work.now x.entry.site.group x.entry.site.count) (best_in best) candidate }
{
    let Some(p) = candidate else {
        return best;
    };
    match x.try_point(p, best.lowest + 1e-10) {
        Some(lowest) => Best {
            lowest,
            point: Some(p),
        },
        None => best,
    }
}

// The place of the first candidate: the first three need a mean.
fn first_candidate(s: Start) -> usize
    ensures { result ≡ first_of s }
{
    if s.near == 0 { 3 } else { 0 }
}

// The best of the nine candidates, or of the last six where there is no mean, for the group of the view's site, whose first vertex has
// this mask; `lowest` is the lowest score about the group as it is.
pub(crate) fn best_candidate(
    regions: Regions,
    x: View,
    start: Start,
    mask: u32,
    lowest: f64,
) -> Best
    ensures { best_in result ≡ best_of x.entry.options regions.entry.fields.list.now (regions_in regions.entry.masks) (about x.entry.elements.now x.entry.work.now x.entry.site.area x.entry.site.about)
        (state_of x.entry.site.vertices x.entry.parameters.now x.entry.points.now 0) (members x.entry.work.now x.entry.site.group x.entry.site.count) start.origin (chosen mask regions.entry.fields.list.now)
        (none_yet lowest) (start_list start x.entry.options) }
{
    let o = x.options;
    let (fields, n) = regions.active(mask);
    let active = Fields { list: &fields[..n] };
    let nine = candidates(start.original, start.origin, start.mean, spacing(o));
    let mut best = Best {
        lowest,
        point: None,
    };
    for c in &nine[first_candidate(start)..] {
        let p = permitted(o, regions, start.origin, active, *c);
        best = try_candidate(x, best, p);
    }
    best
}
