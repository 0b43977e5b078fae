// A line of data/units.txt about the link test: the edge, the number of elements and their words, the number of vertices and their strata,
// = and 0 or 1.
use crate::words::{Pattern, Words};
use geometry::bounds::Bounds;
use geometry::point::Point;
use mesh::strata::Strata;
use mesh::vertex::Points;
use mesh::words::{high_half, low_half};
use std::alloc::{AllocError, Global};

// The most elements and the most vertices of a line; of one that says more none is read.
const MOST: usize = 64;

// How many words the link test has for its work.
const AREA: usize = 6144;

// The coordinate on lo of the unit box (bit 1 of two), on hi (bit 2), or between them.
fn side(bits: u32) -> f64 {
    match bits % 4 {
        1 => 0.0,
        2 => 1.0,
        _ => 0.5,
    }
}

const UNIT_BOX: Bounds = Bounds {
    lo: Point {
        x: 0.0,
        y: 0.0,
        z: 0.0,
    },
    hi: Point {
        x: 1.0,
        y: 1.0,
        z: 1.0,
    },
};

// The parameters that lie on the faces of a stratum's upper 32 bits.
fn parameters(stratum: u64) -> [f64; 3] {
    let faces = high_half(stratum);
    [side(faces), side(faces / 4), side(faces / 16)]
}

// The lower 32 bits of the strata, which are the masks.
fn masks_of(alloc: Global, strata: &[Pattern]) -> Result<Vec<u32>, AllocError> {
    strata.iter().map(|s| low_half(s.0)).collect(alloc)
}

fn parameters_of(alloc: Global, strata: &[Pattern]) -> Result<Vec<[f64; 3]>, AllocError> {
    strata.iter().map(|s| parameters(s.0)).collect(alloc)
}

// The stratum of a vertex, no bits past the last.
fn stratum(strata: &[Pattern], v: usize) -> u64 {
    strata.get(v).map_or(0, |s| s.0)
}

// Whether the bits of the edge's first vertex are among the second's: `improve` asks for the link test only then, and so does `Strata::link_ok_in`.
// The strata are what follows, up to the most there may be: a line may name a vertex behind its last.
fn is_asked(alloc: Global, words: &Words, a: usize, b: usize) -> Result<bool, AllocError> {
    let mut ahead = *words;
    let strata = ahead.list::<Pattern>(alloc, MOST + 1)?;
    let first = stratum(&strata, a);
    Ok(first & stratum(&strata, b) == first)
}

// Whether the link test gives the line's answer, and nothing where it is not asked.
pub(crate) fn link_agrees(alloc: Global, words: &mut Words) -> Result<Option<bool>, AllocError> {
    let a: usize = words.read();
    let b: usize = words.read();
    let n = words.count_to(MOST).unwrap_or(0);
    let mut area = words.list::<u32>(alloc, 4 * n)?;
    area.resize(AREA, 0)?;
    let nv = words.count_to(MOST).unwrap_or(0);
    if !is_asked(alloc, words, a, b)? {
        return Ok(None);
    }
    let strata = words.list::<Pattern>(alloc, nv)?;
    let masks = masks_of(alloc, &strata)?;
    let parameters = parameters_of(alloc, &strata)?;
    let parameters = Points::new(parameters.as_flattened(), nv);
    let strata = Strata::new(&masks, parameters, UNIT_BOX);
    let ok = strata.link_ok_in(&mut area, n, (a % MOST) as u32, (b % MOST) as u32);
    Ok(Some(ok == words.answer()))
}
