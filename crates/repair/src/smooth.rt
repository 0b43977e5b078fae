// `smooth`: groups of vertices of equal rank, in rank order, moved to the best of nine candidates. The work is laid out as for `improve`
// (layout.rt), without flags, pairs and edges, and only its front is used; the floats are not used.
//
// Kept by hand: the functions from `list_about` to `smooth_groups` take the work and its index apart: a struct of a `&mut` slice and an
// index is no plainer, since it needs a clause more in each function, and where it is lent. They take parameters and points beside each other:
// a struct of these two `&mut` slices would need the same, and `Fit` names what is asked of both.
mod candidates;
mod choose;
mod map;
mod move_group;
mod regions;
mod site;
mod trial_scores;

ghost use Rattle.std.specs.Prelude.{◌≡◌, true, List, ℕ, ◌+◌, ◌*◌, ◌≤◌, ◌<◌, length};
ghost use Rattle.mesh.specs.Words.{word_at, points_of, zero_words, zero_floats};
ghost use Rattle.mesh.specs.Group.{groups};
ghost use Rattle.mesh.specs.Measure.{measure, lowest_of};
ghost use Rattle.repair.specs.Smooth.{best_for, smooth_group, smooth_groups};
ghost use Rattle.repair.specs.inside.smooth.Site.{members, about, state_of, best_in, Turned, SameTo, Ready, Slots, Rows, Listed, Sited, Started, Enough, Fit, mesh_read, mesh_for, Grouped};
ghost use Rattle.repair.specs.inside.Layout.{Elements};
ghost use Rattle.repair.specs.Answer.{answer_of};
ghost use Rattle.repair.specs.Step.{State, Pass, held, call_of, regions_in, number_of, values_of, in_numbers, step};

use crate::answer::Made;
use crate::layout::{RANK_WORDS, ROW_WORDS, Run, SORT_WORDS, lay_elements, layout};
use crate::project::fields::Fields;
use crate::smooth::candidates::mean_of;
use crate::smooth::choose::{Best, Start, best_candidate};
use crate::smooth::move_group::move_group;
use crate::smooth::regions::Regions;
use crate::smooth::site::Site;
use crate::smooth::trial_scores::{View, lowest_about};
use geometry::bounds::{Options, canonical};
use geometry::field::Field;
use geometry::point::Point;
use mesh::intake::{Settings, Sizes, intake};
use mesh::refusal::Refusal;
use mesh::rows::run_length;
use mesh::star::Index;
use mesh::vertex::Points;
use mesh::words::{at, zero_all};

// How many words of the work an element takes: 32 before the area, one there in a list of elements, 32 behind it in a list of neighbours
// with its scratch.
const ELEMENT_WORDS: usize = 65;

// Lists the elements about the group whose first vertex stands at `group`, and gives where all of it stands.
fn list_about(work: &mut [u32], x: Index, group: usize, count: usize) -> Site
    requires { Ready x work.old × Rows x work.old group count }
    ensures { Listed x group count work.old work.new result }
{
    let n = x.star_about(work, group, count, ROW_WORDS);
    Site {
        vertices: x.vertices as usize,
        group,
        count,
        area: x.area,
        about: n,
    }
}

// What the candidates start from, for the first vertex v of a group. Its neighbours are listed behind the first k words of the area.
fn start_from(o: Options, parameters: &[f64], work: &mut [u32], x: Index, v: u32, k: usize) -> Start
    requires { Ready x work.old × (v < x.vertices) × (k ≤ x.room) }
    ensures { Started o x parameters.now v k work.old work.new result }
{
    let parameters = Points::new(parameters, x.vertices as usize);
    let a = x.area + k;
    let behind = Index { area: a, ..x };
    let near = behind.neighbours(work, v);
    let mean = mean_of(parameters, &work[a..a + near]);
    let original = parameters.at(v);
    Start {
        original,
        origin: canonical(original, o),
        near,
        mean,
    }
}

// What a call reads and leaves as it is: the fields that count with their regions, and parts of the mesh.
#[derive(Clone, Copy)]
struct Input<'a, 'b> {
    options: Options,
    regions: Regions<'a>,
    masks: &'b [u32],
    elements: &'b [u32],
}

// The best candidate of the group of `site`, whose lowest score is `lowest`.
fn best_for(
    c: Input,
    parameters: &[f64],
    points: &[f64],
    work: &mut [u32],
    x: Index,
    site: Site,
    lowest: f64,
) -> Best
    requires ready { Ready x work.old × Slots x c.elements.now work.old × Sited x c.elements.now work.old site }
    requires lowest { lowest ≡ lowest_of (measure (points_of site.vertices points.now)) (about c.elements.now work.old site.area site.about) }
    ensures best { best_in result ≡ best_for c.entry.options c.entry.regions.fields.list.now (regions_in c.entry.regions.masks) (mesh_for x c.entry.masks.now c.entry.elements.now)
        (state_of x.vertices parameters.now points.now 0) (word_at work.old site.group) (members work.old site.group site.count) }
    ensures same_to { SameTo x.area work.old work.new }
{
    let v = at(work, site.group);
    let mask = at(c.masks, v as usize);
    let start = start_from(c.options, parameters, work, x, v, site.about);
    let view = View {
        options: c.options,
        parameters,
        points,
        elements: c.elements,
        work,
        site,
    };
    best_candidate(c.regions, view, start, mask, lowest)
}

// Moves the group of `run` where its lowest score is below 0.15 and a candidate is better, and gives how many vertices have moved, `moved`
// so far.
fn smooth_group(
    c: Input,
    parameters: &mut [f64],
    points: &mut [f64],
    work: &mut [u32],
    x: Index,
    run: Run,
    moved: usize,
) -> usize
    requires ready { Ready x work.old × Rows x work.old (7 * run.first + 6) run.size × Slots x c.elements.now work.old }
    requires moved_before { moved ≤ run.first }
    requires fit { Fit x.vertices parameters.old points.old }
    ensures turned { Turned x.vertices (smooth_group c.entry.options c.entry.regions.fields.list.now (regions_in c.entry.regions.masks) (mesh_for x c.entry.masks.now c.entry.elements.now)
        (state_of x.vertices parameters.old points.old moved) (members work.old (7 * run.first + 6) run.size))
        parameters.old points.old parameters.new points.new result }
    ensures same_to { SameTo x.area work.old work.new × (result ≤ moved + run.size) }
{
    let size = run.size;
    let group = ROW_WORDS * run.first + RANK_WORDS;
    let site = list_about(work, x, group, size);
    let lowest = lowest_about(points, c.elements, work, site);
    if !(lowest < 0.15) {
        return moved;
    }
    let best = best_for(c, parameters, points, work, x, site, lowest);
    let Some(p) = best.point else {
        return moved;
    };
    move_group(c.options, parameters, points, work, site, p);
    moved + size
}

// Smooths every group in rank order, and gives how many vertices have moved.
fn smooth_groups(
    c: Input,
    parameters: &mut [f64],
    points: &mut [f64],
    work: &mut [u32],
    x: Index,
) -> usize
    requires ready { Ready x work.old × Slots x c.elements.now work.old × Grouped c.options x parameters.old work.old }
    requires fit { Fit x.vertices parameters.old points.old }
    ensures { Turned x.vertices (smooth_groups c.entry.options c.entry.regions.fields.list.now (regions_in c.entry.regions.masks) (mesh_for x c.entry.masks.now c.entry.elements.now)
        (state_of x.vertices parameters.old points.old 0) (groups c.entry.options (points_of x.vertices parameters.old)))
        parameters.old points.old parameters.new points.new result }
{
    let nv = x.vertices as usize;
    let mut first = 0;
    let mut moved = 0;
    // Kept by hand: a turn goes over a run of rows, so the step is not one; it writes the work, which an iterator over the runs would hold.
    while first < nv {
        let size = run_length(work, first, nv, ROW_WORDS, RANK_WORDS);
        let run = Run { first, size };
        moved = smooth_group(c, parameters, points, work, x, run, moved);
        first += size;
    }
    moved
}

// Lays out the work: the groups, the slots and their index.
fn prepare(
    o: Options,
    sizes: Sizes,
    parameters: &[f64],
    elements: &[u32],
    work: &mut [u32],
) -> Index
    requires room { Enough sizes.vertices sizes.elements (length work.old) }
    requires elements { Elements sizes.vertices sizes.elements elements.now }
    ensures laid { (result.vertices ≡ sizes.vertices) × (result.room ≡ sizes.elements) × Ready result work.new }
    ensures slots { Slots result elements.now work.new × Grouped o result parameters.now work.new }
{
    let n = sizes.elements as u32;
    let x = layout(sizes.vertices as u32, n);
    Points::new(parameters, sizes.vertices).group_in(o, work);
    lay_elements(work, x, elements, n);
    x
}

// Smooths every group, in the words that are used, and gives how many vertices have moved. The words are all zeros afterwards.
fn smooth_in(
    c: Input,
    sizes: Sizes,
    parameters: &mut [f64],
    points: &mut [f64],
    work: &mut [u32],
) -> usize
    requires room { Enough sizes.vertices sizes.elements (length work.old) }
    requires elements { Elements sizes.vertices sizes.elements c.elements.now }
    requires fit { Fit sizes.vertices parameters.old points.old }
    ensures turned { Turned sizes.vertices (smooth_groups c.entry.options c.entry.regions.fields.list.now (regions_in c.entry.regions.masks) (mesh_read sizes.vertices sizes.elements c.entry.masks.now c.entry.elements.now)
        (state_of sizes.vertices parameters.old points.old 0) (groups c.entry.options (points_of sizes.vertices parameters.old)))
        parameters.old points.old parameters.new points.new result }
    ensures work_after { work.new ≡ zero_words (length work.old) }
{
    let x = prepare(c.options, sizes, parameters, c.elements, work);
    let moved = smooth_groups(c, parameters, points, work, x);
    zero_all(work);
    moved
}

// Moves vertices of badly shaped elements; the count is that of the vertices moved. No list of regions is not the same as an empty one.
// Both work slices may hold anything before, and are all zeros afterwards.
// Kept by hand: the buffers one by one, as the C interface lends them.
pub fn smooth(
    s: Settings,
    fields: [Field; 8],
    regions: Option<&[u32]>,
    parameters: &mut [f64],
    points: &mut [f64],
    masks: &[u32],
    elements: &[u32],
    surface: &[u32],
    work: &mut [u32],
    floats: &mut [f64],
) -> Result<Made, Refusal>
    ensures fact { ◌≡◌ {A = ℕ × List ℕ × State}
        (number_of (answer_of result), values_of (answer_of result), held s.sizes parameters.new points.new masks.now elements.now surface.now)
        (in_numbers (step (call_of Pass.smooth s fields (regions_in regions.entry) work.old floats.old)
        (held s.sizes parameters.old points.old masks.now elements.now surface.now))) }
    ensures work_after { work.new ≡ zero_words (length work.old) }
    ensures floats_after { floats.new ≡ zero_floats (length floats.old) }
{
    intake(
        s,
        fields,
        parameters,
        points,
        masks.len(),
        elements,
        surface.len(),
        work,
        floats,
    )?;
    let sizes = s.sizes;
    let input = Input {
        options: s.options,
        regions: Regions {
            fields: Fields::first(&fields, s.count as usize),
            masks: regions,
        },
        masks,
        elements,
    };
    let used = SORT_WORDS * sizes.vertices + ELEMENT_WORDS * sizes.elements;
    let moved = smooth_in(input, sizes, parameters, points, &mut work[0..used]);
    Ok(Made {
        count: moved,
        sizes,
    })
}
