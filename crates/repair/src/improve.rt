// `improve`: rounds of edge collapses, then the vertices that are left, renumbered.
mod buffers;
mod collapse;
mod edges;
mod gain;
mod inputs;
mod pair_test;
mod partners;
mod prepare;
mod renumber;
mod round;

ghost use Rattle.std.specs.Prelude.{◌≡◌, List, ℕ, ◌+◌, ◌*◌, ◌≤◌, length, take};
ghost use Rattle.std.proofs.Math.Option.{none};
ghost use Rattle.mesh.specs.Words.{zero_words, zero_floats, points_of};
ghost use Rattle.mesh.specs.Element.{tets};
ghost use Rattle.mesh.specs.Measure.{measure};
ghost use Rattle.repair.specs.Mesh.{Mesh};
ghost use Rattle.repair.specs.Improve as def;
ghost use Rattle.repair.specs.inside.Layout.{Reads};
ghost use Rattle.repair.specs.Answer.{answer_of};
ghost use Rattle.repair.specs.Step.{State, Pass, held, call_of, number_of, values_of, in_numbers, sizes_after, step};
ghost use Rattle.repair.specs.inside.improve.Round.{ReadsOf, StandsOf, ReadyOf};
ghost use Rattle.repair.specs.inside.improve.Fitting.{Fitting, Collapsed, after_rounds};

use crate::answer::Made;
use crate::improve::buffers::Buffers;
use crate::improve::edges::list_edges;
use crate::improve::inputs::Inputs;
use crate::improve::prepare::begin;
use crate::improve::renumber::finish_improve;
use crate::improve::round::round;
use crate::layout::layout;
use geometry::bounds::{Options, spacing};
use geometry::field::Field;
use mesh::intake::{Settings, Sizes, intake};
use mesh::refusal::Refusal;
use mesh::vertex::Points;
use mesh::words::zero_all;

// What the rounds leave: how many vertices are replaced, how many elements there are, and where in the work slice they stand.
#[derive(Clone, Copy)]
struct Rest {
    replaced: usize,
    elements: usize,
    area: usize,
}

// At most as many rounds as the options allow, ended by one that collapses nothing. Gives how many vertices were replaced.
fn rounds(work: &mut [u32], given: &Inputs) -> usize
    requires { ReadyOf given.now work.old × (given.now.options.passes ≤ 16) }
    ensures { (m : Mesh) (s : def.State) → ReadsOf given.now m → StandsOf given.now m work.old s
        → StandsOf given.now m work.new (def.rounds given.now.options m (measure m.points) given.now.options.passes s)
        × (length (def.rounds given.now.options m (measure m.points) given.now.options.passes s).replaced ≡ result + length s.replaced) }
{
    let limit = 0.75 * spacing(given.options);
    let mut replaced = 0;
    for _made in 0..given.options.passes {
        let count = list_edges(work, given, limit);
        let k = round(work, given, count);
        if k == 0 {
            return replaced;
        }
        replaced += k;
    }
    replaced
}

// Lays the mesh out and makes the rounds. The elements that are left stand at the front of the area.
fn collapse_edges(sizes: Sizes, o: Options, mesh: &Buffers, work: &mut [u32]) -> Rest
    requires { Fitting o sizes mesh.now.elements.now work.old × (sizes.vertices ≤ length mesh.now.masks.now) }
    ensures { (m : Mesh) → Reads m (points_of sizes.vertices mesh.now.parameters.now) (points_of sizes.vertices mesh.now.points.now) (take sizes.vertices mesh.now.masks.now)
        → Collapsed sizes (after_rounds o m (tets sizes.elements mesh.now.elements.now)) work.new result }
{
    let nv = sizes.vertices;
    let x = layout(nv as u32, sizes.elements as u32);
    let given = Inputs {
        index: x,
        options: o,
        masks: &mesh.masks[..nv],
        parameters: Points::new(mesh.parameters, nv),
        points: Points::new(mesh.points, nv),
    };
    begin(work, &given, mesh.elements);
    Rest {
        replaced: rounds(work, &given),
        elements: x.live_elements(work, sizes.elements),
        area: x.area,
    }
}

// `improve` on whole buffers: intake, then the pass. Both work slices may hold anything before, and are all zeros afterwards.
// Kept by hand: the buffers one by one, as the C interface lends them. Below they are `Buffers`.
pub fn improve(
    s: Settings,
    fields: [Field; 8],
    parameters: &mut [f64],
    points: &mut [f64],
    masks: &mut [u32],
    elements: &mut [u32],
    surface: &mut [u32],
    work: &mut [u32],
    floats: &mut [f64],
) -> Result<Made, Refusal>
    ensures fact { ◌≡◌ {A = ℕ × List ℕ × State}
        (number_of (answer_of result), values_of (answer_of result), held (sizes_after (answer_of result) s.sizes) parameters.new points.new masks.new elements.new surface.new)
        (in_numbers (step (call_of Pass.improve s fields none work.old floats.old)
        (held s.sizes parameters.old points.old masks.old elements.old surface.old))) }
    ensures work_after { work.new ≡ zero_words (length work.old) }
    ensures floats_after { floats.new ≡ zero_floats (length floats.old) }
{
    intake(
        s,
        fields,
        parameters,
        points,
        masks.len(),
        elements,
        surface.len(),
        work,
        floats,
    )?;
    let mut mesh = Buffers {
        parameters,
        points,
        masks,
        elements,
        surface,
    };
    let rest = collapse_edges(s.sizes, s.options, &mesh, work);
    let a = rest.area;
    let answer = finish_improve(
        s.sizes,
        rest.replaced,
        rest.elements,
        &mut mesh,
        &mut work[a..],
        floats,
    );
    zero_all(work);
    zero_all(floats);
    answer
}
