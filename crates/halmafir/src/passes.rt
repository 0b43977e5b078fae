// The passes on a mesh in its buffers. `sizes` are its vertices, elements and surface triples; `settings` are three cells, periodic bits,
// passes, how many of the eight fields there are, and their kinds; `numbers` are the box, lo and hi per direction, and four for each field.
// The number returned is 0, with the count and the new sizes in `result`, or one of document 01's table, with zeros there.
// Both work slices may hold anything before, and are all zeros afterwards.
// Kept by hand: the C interface. `halmafir_improve`, `halmafir_smooth` and `halmafir_flip` take each buffer by itself, a list of regions with
// a number that says whether there is one, and give a number.
ghost use Rattle.std.specs.Prelude.{◌≡◌, List, not, ℕ, eqb};
ghost use Rattle.std.proofs.Math.Option.{none};
ghost use Rattle.mesh.specs.Words.{zero_words};
ghost use Rattle.repair.specs.Answer.{answer_of};
ghost use Rattle.repair.specs.Step.{Pass, call_of, held, regions_of, regions_in, number_of, values_of, over};
ghost use Rattle.halmafir.specs.Arrays.{fields_of, sizes_of, settings_of};
ghost use Rattle.halmafir.specs.Called.{Returned, called};

use crate::arrays::{fields_of, settings_of};
use mesh::refusal::Refusal;
use repair::answer::Made;
use repair::flip::flip;
use repair::improve::improve;
use repair::smooth::smooth;

// Puts the result's four places and gives the number.
fn put_answer(to: &mut [usize; 4], given: Result<Made, Refusal>) -> u32
    ensures { ◌≡◌ {A = ℕ × List ℕ} (result, to.new) (number_of (answer_of given), over (values_of (answer_of given)) (zero_words 4)) }
{
    match given {
        Ok(m) => {
            *to = [m.count, m.sizes.vertices, m.sizes.elements, m.sizes.triples];
            0
        }
        Err(refusal) => {
            *to = [0; 4];
            u32::from(refusal)
        }
    }
}

// The list of regions, if there is one: `listed` is 0 where there is none.
fn listed_regions<'a>(listed: u32, regions: &'a [u32]) -> Option<&'a [u32]>
    ensures { regions_in result ≡ regions_of (not (eqb listed 0)) regions.now }
{
    if listed != 0 { Some(regions) } else { None }
}

// `improve`: collapses short edges of badly shaped elements. The count is that of the vertices replaced.
pub fn halmafir_improve(
    parameters: &mut [f64],
    points: &mut [f64],
    masks: &mut [u32],
    elements: &mut [u32],
    surface: &mut [u32],
    sizes: &[usize; 3],
    settings: &[u32; 14],
    numbers: &[f64; 38],
    words: &mut [u32],
    floats: &mut [f64],
    res: &mut [usize; 4],
) -> u32
    ensures { ◌≡◌ {A = Returned}
        (record { number = result; result = res.new; parameters = parameters.new; points = points.new; masks = masks.new; elements = elements.new; surface = surface.new; words = words.new; floats = floats.new })
        (called (call_of Pass.improve (settings_of sizes.now settings.now numbers.now) (fields_of settings.now numbers.now) none words.old floats.old)
        (held (sizes_of sizes.now) parameters.old points.old masks.old elements.old surface.old)) }
{
    let s = settings_of(sizes, settings, numbers);
    let f = fields_of(settings, numbers);
    let given = improve(
        s, f, parameters, points, masks, elements, surface, words, floats,
    );
    put_answer(res, given)
}

// `smooth`: moves vertices of badly shaped elements. The count is that of the vertices moved. `listed` is 0 where there is no list of
// regions, which is not the same as an empty list, and any other number where `regions` is the list.
pub fn halmafir_smooth(
    parameters: &mut [f64],
    points: &mut [f64],
    masks: &[u32],
    elements: &[u32],
    surface: &[u32],
    sizes: &[usize; 3],
    settings: &[u32; 14],
    numbers: &[f64; 38],
    listed: u32,
    regions: &[u32],
    words: &mut [u32],
    floats: &mut [f64],
    res: &mut [usize; 4],
) -> u32
    ensures { ◌≡◌ {A = Returned}
        (record { number = result; result = res.new; parameters = parameters.new; points = points.new; masks = masks.now; elements = elements.now; surface = surface.now; words = words.new; floats = floats.new })
        (called (call_of Pass.smooth (settings_of sizes.now settings.now numbers.now) (fields_of settings.now numbers.now) (regions_of (not (eqb listed 0)) regions.now) words.old floats.old)
        (held (sizes_of sizes.now) parameters.old points.old masks.now elements.now surface.now)) }
{
    let s = settings_of(sizes, settings, numbers);
    let f = fields_of(settings, numbers);
    let given = smooth(
        s,
        f,
        listed_regions(listed, regions),
        parameters,
        points,
        masks,
        elements,
        surface,
        words,
        floats,
    );
    put_answer(res, given)
}

// `flip`: reconnects badly shaped elements. The count is that of the flips made.
pub fn halmafir_flip(
    parameters: &[f64],
    points: &[f64],
    masks: &[u32],
    elements: &mut [u32],
    surface: &mut [u32],
    sizes: &[usize; 3],
    settings: &[u32; 14],
    numbers: &[f64; 38],
    words: &mut [u32],
    floats: &mut [f64],
    res: &mut [usize; 4],
) -> u32
    ensures { ◌≡◌ {A = Returned}
        (record { number = result; result = res.new; parameters = parameters.now; points = points.now; masks = masks.now; elements = elements.new; surface = surface.new; words = words.new; floats = floats.new })
        (called (call_of Pass.flip (settings_of sizes.now settings.now numbers.now) (fields_of settings.now numbers.now) none words.old floats.old)
        (held (sizes_of sizes.now) parameters.now points.now masks.now elements.old surface.old)) }
{
    let s = settings_of(sizes, settings, numbers);
    let f = fields_of(settings, numbers);
    let given = flip(
        s, f, parameters, points, masks, elements, surface, words, floats,
    );
    put_answer(res, given)
}
