// The records of vertices and elements as they are read, in rows: parameters, points, masks and elements.
ghost use Rattle.std.specs.Prelude.{◌≡◌, ◌<◌, ◌≤◌};
ghost use Rattle.report.specs.Block.{vertex_place, element_place, parameter_row, point_row, mask_row, element_row};
ghost use Rattle.report.specs.inside.Rows.{parameter_row-wide, point_row-wide, mask_row-wide, element_row-wide};

use crate::bytes::{float, word};
use crate::format::{
    ELEMENT_SIZE, ELEMENTS_A_BLOCK, FIRST_RECORD, VERTEX_SIZE, VERTICES_A_BLOCK, WORDS_A_BLOCK,
};
use crate::rows::Rows;

// Where the record of the vertex v begins.
fn vertex_place(v: usize) -> usize
    requires { v < 1000 }
    ensures { (result ≡ vertex_place v) × (result < 100000) }
{
    WORDS_A_BLOCK * (1 + v / VERTICES_A_BLOCK) + FIRST_RECORD + VERTEX_SIZE * (v % VERTICES_A_BLOCK)
}

// Where the record of the element e begins, behind this many blocks.
fn element_place(blocks: usize, e: usize) -> usize
    requires { (blocks ≤ 4) × (e < 1000) }
    ensures { (result ≡ element_place blocks e) × (result < 100000) }
{
    WORDS_A_BLOCK * (blocks + e / ELEMENTS_A_BLOCK)
        + FIRST_RECORD
        + ELEMENT_SIZE * (e % ELEMENTS_A_BLOCK)
}

// The parameters of the vertices of a file.
#[derive(Clone, Copy)]
pub(crate) struct Parameters<'a>(pub &'a [u8]);

impl<'a> Rows<f64, 3> for Parameters<'a> {
    ghost told = { λ r. parameter_row r.0.now };

    #[tactic(auto, unfolding(crate::specs::Block::parameter_row))]
    fn put(&self, v: usize, to: &mut [f64]) {
        let p = vertex_place(v);
        to.copy_from_slice(&[float(self.0, p), float(self.0, p + 2), float(self.0, p + 4)]);
    }

    ghost wide = { λ r. parameter_row-wide r.0.now };
}

// Their points.
#[derive(Clone, Copy)]
pub(crate) struct Coordinates<'a>(pub &'a [u8]);

impl<'a> Rows<f64, 3> for Coordinates<'a> {
    ghost told = { λ r. point_row r.0.now };

    #[tactic(auto, unfolding(crate::specs::Block::point_row))]
    fn put(&self, v: usize, to: &mut [f64]) {
        let p = vertex_place(v);
        to.copy_from_slice(&[
            float(self.0, p + 6),
            float(self.0, p + 8),
            float(self.0, p + 10),
        ]);
    }

    ghost wide = { λ r. point_row-wide r.0.now };
}

// Their masks.
#[derive(Clone, Copy)]
pub(crate) struct Masks<'a>(pub &'a [u8]);

impl<'a> Rows<u32, 1> for Masks<'a> {
    ghost told = { λ r. mask_row r.0.now };

    #[tactic(auto, unfolding(crate::specs::Block::mask_row))]
    fn put(&self, v: usize, to: &mut [u32]) {
        to.copy_from_slice(&[word(self.0, vertex_place(v) + 12)]);
    }

    ghost wide = { λ r. mask_row-wide r.0.now };
}

// The vertices of the elements of a file, whose records stand behind this many blocks.
#[derive(Clone, Copy)]
pub(crate) struct Elements<'a> {
    pub file: &'a [u8],
    pub blocks: usize,
    ghost few: { blocks ≤ 4 },
}

impl<'a> Rows<u32, ELEMENT_SIZE> for Elements<'a> {
    ghost told = { λ r. element_row r.file.now r.blocks };

    #[tactic(auto, unfolding(crate::specs::Block::element_row))]
    fn put(&self, e: usize, to: &mut [u32]) {
        let p = element_place(self.blocks, e);
        to.copy_from_slice(&[
            word(self.file, p),
            word(self.file, p + 1),
            word(self.file, p + 2),
            word(self.file, p + 3),
        ]);
    }

    ghost wide = { λ r. element_row-wide r.file.now r.blocks };
}
