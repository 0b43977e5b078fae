// Lines of data/units.txt about elements and surfaces.
use crate::words::Words;
use mesh::boundary::boundary;
use mesh::manifold::nonmanifold_in;
use std::alloc::{AllocError, Global};

// The most elements and the most triples of a line; one that says more differs.
const ELEMENTS: usize = 64;

const TRIPLES: usize = 100;

// How many words the nonmanifold test has for its work.
const AREA: usize = 8192;

// Whether `boundary` gives the line's answer: 0 with the number of triples and their words, or the number of the refusal.
pub(crate) fn boundary_agrees(alloc: Global, words: &mut Words) -> Result<bool, AllocError> {
    let Some(n) = words.count_to(ELEMENTS) else {
        return Ok(false);
    };
    let elements = words.list::<u32>(alloc, 4 * n)?;
    let mut surface = vec![in alloc; 0u32; 12 * n]?;
    let mut work = vec![in alloc; 0u32; 36 * n]?;
    let found = boundary(&elements, n, &mut surface, &mut work);
    let number: u64 = words.answer();
    match found {
        Ok(c) => {
            if number != 0 || words.read::<usize>() != c {
                return Ok(false);
            }
            let stored = words.list::<u64>(alloc, surface.len())?;
            Ok(
                surface
                    .iter()
                    .zip(&stored)
                    .take(c.saturating_mul(3))
                    .all(|(x, y)| u64::from(*x) == *y),
            )
        }
        Err(refusal) => Ok(u64::from(u32::from(refusal)) == number),
    }
}

// Whether the nonmanifold test gives the line's answer, which lists the nonmanifold vertices.
pub(crate) fn nonmanifold_agrees(alloc: Global, words: &mut Words) -> Result<bool, AllocError> {
    words.skip();
    let Some(n) = words.count_to(TRIPLES) else {
        return Ok(false);
    };
    let mut area = words.list::<u32>(alloc, 3 * n)?;
    area.resize(AREA, 0)?;
    let found = nonmanifold_in(&mut area, n);
    Ok(found == (words.answer::<u64>() != 0))
}
