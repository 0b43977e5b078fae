// Parts of the passes for other languages: projection, link test, intake. Settings and numbers are those of the passes.
// Kept by hand: the C interface. `h_project`, `h_link` and `h_intake` give a number and take each buffer by itself.
ghost use Rattle.std.specs.Prelude.{◌≡◌, List, ℕ, ◌*◌, ◌/◌, Float, length, take};
ghost use Rattle.mesh.specs.Words.{points_of, copied, zero_words, zero_floats};
ghost use Rattle.mesh.specs.Intake.{intake, given_of};
ghost use Rattle.mesh.specs.Feature.{stratum_of, link_ok_in};
ghost use Rattle.repair.specs.Project.{project};
ghost use Rattle.halmafir.specs.Arrays.{point_of, bounds_of, fields_of, count_of, settings_of};
ghost use Rattle.export.specs.Answers.{as_number, point_over};

use crate::point_in;
use geometry::point::Point;
use halmafir::arrays::{bounds_of, fields_of, options_of, settings_of};
use mesh::strata::Strata;
use mesh::vertex::Points;
use mesh::words::copy_part;
use repair::project::project_candidate;

// Puts the point found and gives 1, or gives 0.
fn put_point(to: &mut [f64; 3], found: Option<Point>) -> u32
    ensures { ◌≡◌ {A = ℕ × List Float} (result, to.new) (point_over to.old found) }
{
    match found {
        Some(p) => {
            to[0] = p.x;
            to[1] = p.y;
            to[2] = p.z;
            1
        }
        None => 0,
    }
}

// How many fields count.
fn count(settings: &[u32; 14]) -> u32
    ensures { result ≡ count_of settings.now }
{
    settings[5]
}

// 1 and the point that the candidate is moved to on the fields that count, or 0. Of the settings and numbers only the box and the fields
// are looked at.
#[unsafe(no_mangle)]
pub extern "C" fn h_project(
    settings: &[u32; 14],
    numbers: &[f64; 38],
    origin: &[f64; 3],
    candidate: &[f64; 3],
    point: &mut [f64; 3],
) -> u32
    ensures { ◌≡◌ {A = ℕ × List Float} (result, point.new) (point_over point.old
        (project (bounds_of numbers.now) (point_of origin.now 0) (take (count_of settings.now) (fields_of settings.now numbers.now)) (point_of candidate.now 0))) }
{
    let o = options_of(settings, numbers);
    let found = project_candidate(
        o.bounds,
        point_in(origin),
        fields_of(settings, numbers),
        count(settings) as usize,
        point_in(candidate),
    );
    put_point(point, found)
}

// 1 where a's bits are among b's and the edge a b passes the link test among as many elements as the slice holds, else 0, and 0 where the
// work is too small. A vertex has the bits of its mask and those of the box's faces that its parameters lie on.
#[unsafe(no_mangle)]
pub extern "C" fn h_link(
    a: u32,
    b: u32,
    elements: &[u32],
    masks: &[u32],
    parameters: &[f64],
    sides: &[f64; 6],
    work: &mut [u32],
) -> u32
    ensures { (result ≡ as_number (link_ok_in (stratum_of masks.now (points_of (length masks.now) parameters.now) (bounds_of sides.now)) a b
        (length elements.now / 4) (copied elements.now 0 work.old 0 (4 * (length elements.now / 4)))).answer)
        × (work.new ≡ (link_ok_in (stratum_of masks.now (points_of (length masks.now) parameters.now) (bounds_of sides.now)) a b
        (length elements.now / 4) (copied elements.now 0 work.old 0 (4 * (length elements.now / 4)))).area) }
{
    let n = elements.len() / 4;
    copy_part(elements, 0, work, 0, 4 * n);
    let strata = Strata::new(
        masks,
        Points::new(parameters, masks.len()),
        bounds_of(sides),
    );
    u32::from(strata.link_ok_in(work, n, a, b))
}

// Intake's number for a mesh and the other inputs of a pass, for measurements; of masks and surface it takes the lengths. Both work slices are all
// zeros afterwards.
#[unsafe(no_mangle)]
pub extern "C" fn h_intake(
    parameters: &[f64],
    points: &[f64],
    masks: usize,
    elements: &[u32],
    surface: usize,
    sizes: &[usize; 3],
    settings: &[u32; 14],
    numbers: &[f64; 38],
    words: &mut [u32],
    floats: &mut [f64],
) -> u32
    ensures value { result ≡ intake (given_of (settings_of sizes.now settings.now numbers.now) (fields_of settings.now numbers.now)
        parameters.now points.now masks elements.now surface words.old floats.old) }
    ensures words_after { words.new ≡ zero_words (length words.old) }
    ensures floats_after { floats.new ≡ zero_floats (length floats.old) }
{
    let s = settings_of(sizes, settings, numbers);
    let f = fields_of(settings, numbers);
    let found = mesh::intake::intake(
        s, f, parameters, points, masks, elements, surface, words, floats,
    );
    match found {
        Ok(()) => 0,
        Err(refusal) => u32::from(refusal),
    }
}
