// The buffers that the passes run in, and what a file puts to their fronts.
ghost use Rattle.std.specs.Prelude.{◌≡◌, ◌*◌, ◌≤◌, length};
ghost use Rattle.mesh.specs.Element.{tets};
ghost use Rattle.mesh.specs.Surface.{triples_of, answer_of, surface_words};
ghost use Rattle.repair.specs.Step.{State, over};
ghost use Rattle.report.specs.Format.{most_elements};
ghost use Rattle.report.specs.Block.{reading_number, plot_in};
ghost use Rattle.report.specs.Report.{word_room, float_room, placed, blank};
ghost use Rattle.report.specs.inside.Buffers.{state_in, no_sizes};

use crate::block::vertex_blocks;
use crate::bytes::word;
use crate::format::{ELEMENTS_PLACE, MOST_ELEMENTS, MOST_VERTICES, VERTICES_PLACE};
use crate::records::{Coordinates, Elements, Masks, Parameters};
use crate::rows::put_rows;
use mesh::boundary::boundary;
use mesh::intake::Sizes;

// The lengths of the buffers: specs/Report.antt says what they are for.
const MOST_MADE: usize = MOST_ELEMENTS + MOST_ELEMENTS / 2;

const POINT_ROOM: usize = 3 * MOST_VERTICES;

const MASK_ROOM: usize = MOST_VERTICES;

const ELEMENT_ROOM: usize = 4 * (2 * MOST_MADE);

const SURFACE_ROOM: usize = 3 * (4 * MOST_MADE);

const WORD_ROOM: usize = 256 * MOST_ELEMENTS + 32 * MOST_VERTICES + 1024;

const FLOAT_ROOM: usize = 16 * MOST_VERTICES;

// The five buffers of a mesh and the two of work.
// Kept by hand: fixed memory; the passes take the five slices of a mesh and the two of work as the C interface lends them, and what they
// hold stands at the front, with its number beside it.
#[derive(Drop)]
pub(crate) struct Buffers {
    pub parameters: [f64; POINT_ROOM],
    pub points: [f64; POINT_ROOM],
    pub masks: [u32; MASK_ROOM],
    pub elements: [u32; ELEMENT_ROOM],
    pub surface: [u32; SURFACE_ROOM],
    pub work: [u32; WORD_ROOM],
    pub floats: [f64; FLOAT_ROOM],
}

// Puts the surface of n elements to the front of a slice, and gives how many triples it has: none where 16 or 17 applies.
fn put_surface(elements: &[u32], n: usize, surface: &mut [u32], work: &mut [u32]) -> usize
    requires { (n ≤ most_elements) × (4 * n ≤ length elements.now) × (12 * n ≤ length surface.old) × (36 * n ≤ length work.old) }
    ensures { (result ≡ triples_of (answer_of (tets n elements.now)))
        × (surface.new ≡ over (surface_words (tets n elements.now)) surface.old) }
{
    boundary(elements, n, surface, work).unwrap_or(0)
}

impl Buffers {
    // Buffers that hold zeros.
    pub(crate) fn new() -> Buffers
        ensures { ◌≡◌ {A = State} (state_in result no_sizes) blank }
    {
        Buffers {
            parameters: [0.0; POINT_ROOM],
            points: [0.0; POINT_ROOM],
            masks: [0; MASK_ROOM],
            elements: [0; ELEMENT_ROOM],
            surface: [0; SURFACE_ROOM],
            work: [0; WORD_ROOM],
            floats: [0.0; FLOAT_ROOM],
        }
    }

    // Puts the vertices and elements of a file that is read, and their surface, to the buffers' fronts.
    pub(crate) fn read_plot(&mut self, s: &[u8]) -> Sizes
        requires { reading_number s.now ≡ 0 }
        ensures fact { ◌≡◌ {A = State} (state_in self.new result) (placed (plot_in s.now) (state_in self.old no_sizes)) }
        ensures room { (length self.new.work ≡ word_room) × (length self.new.floats ≡ float_room) }
    {
        let v = word(s, VERTICES_PLACE) as usize;
        let n = word(s, ELEMENTS_PLACE) as usize;
        put_rows(&Parameters(s), v, &mut self.parameters);
        put_rows(&Coordinates(s), v, &mut self.points);
        put_rows(&Masks(s), v, &mut self.masks);
        let elements = Elements {
            file: s,
            blocks: 1 + vertex_blocks(v),
        };
        put_rows(&elements, n, &mut self.elements);
        let c = put_surface(&self.elements, n, &mut self.surface, &mut self.work);
        Sizes {
            vertices: v,
            elements: n,
            triples: c,
        }
    }
}
