// `flip`: two-to-three over shared faces, then three-to-two over edges, then the elements that are left and their boundary.
mod counts;
mod find;
mod finish;
mod inputs;
mod layout;
mod orient;
mod prepare;
mod replace;
mod slots;
mod three_to_two;
mod tries;
mod two_to_three;

ghost use Rattle.std.specs.Prelude.{◌≡◌, List, ℕ, length};
ghost use Rattle.std.proofs.Math.Option.{none};
ghost use Rattle.mesh.specs.Words.{zero_words, zero_floats};
ghost use Rattle.repair.specs.Answer.{answer_of};
ghost use Rattle.repair.specs.Step.{Answer, State, Pass, held, call_of, number_of, values_of, in_numbers, sizes_after, step};
ghost use Rattle.repair.specs.inside.flip.Fitting.{FlipFitting, flip_whole};

use crate::answer::Made;
use crate::flip::finish::finish_flip;
use crate::flip::inputs::Inputs;
use crate::flip::layout::flip_layout;
use crate::flip::prepare::begin_flip;
use crate::flip::tries::{try_edges, try_faces};
use geometry::field::Field;
use mesh::intake::{Settings, Sizes, intake};
use mesh::refusal::Refusal;
use mesh::vertex::Points;
use mesh::words::zero_all;

// The pass on a mesh that passed intake.
fn flip_all(
    sizes: Sizes,
    points: &[f64],
    elements: &mut [u32],
    surface: &mut [u32],
    work: &mut [u32],
) -> Result<Made, Refusal>
    requires { FlipFitting sizes elements.old surface.old work.old }
    ensures { ◌≡◌ {A = Answer × List ℕ × List ℕ} (answer_of result, elements.new, surface.new)
        (flip_whole sizes points.now elements.old surface.old) }
{
    let nv = sizes.vertices;
    let n = sizes.elements as u32;
    let x = flip_layout(nv as u32, n);
    let given = Inputs {
        index: x,
        elements: n,
        points: Points::new(points, nv),
    };
    let l = begin_flip(work, &given, elements);
    let t = try_faces(work, &given, l.faces);
    let u = try_edges(work, &given, l, t);
    let k = x.live_elements(work, u.slots as usize);
    let a = x.area;
    finish_flip(sizes, u.flips, k, elements, surface, &mut work[a..])
}

// `flip` on whole buffers: intake, then the pass. Both work slices may hold anything before, and are all zeros afterwards.
// Kept by hand: the buffers one by one, as the C interface lends them. The pass itself takes the three that it needs.
pub fn flip(
    s: Settings,
    fields: [Field; 8],
    parameters: &[f64],
    points: &[f64],
    masks: &[u32],
    elements: &mut [u32],
    surface: &mut [u32],
    work: &mut [u32],
    floats: &mut [f64],
) -> Result<Made, Refusal>
    ensures fact { ◌≡◌ {A = ℕ × List ℕ × State}
        (number_of (answer_of result), values_of (answer_of result), held (sizes_after (answer_of result) s.sizes) parameters.now points.now masks.now elements.new surface.new)
        (in_numbers (step (call_of Pass.flip s fields none work.old floats.old)
        (held s.sizes parameters.now points.now masks.now elements.old surface.old))) }
    ensures work_after { work.new ≡ zero_words (length work.old) }
    ensures floats_after { floats.new ≡ zero_floats (length floats.old) }
{
    intake(
        s,
        fields,
        parameters,
        points,
        masks.len(),
        elements,
        surface.len(),
        work,
        floats,
    )?;
    let answer = flip_all(s.sizes, points, elements, surface, work);
    zero_all(work);
    answer
}
