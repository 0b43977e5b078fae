// The blocks of a file: what is wrong with them, in the order of the tests.
ghost use Rattle.std.specs.Prelude.{◌≡◌, ◌+◌, ◌-◌, ◌*◌, ◌<◌, ◌≤◌};
ghost use Rattle.report.specs.Format.{block_kind_number, elements_a_block, most_vertices, most_elements};
ghost use Rattle.report.specs.inside.Error.{number_of};
ghost use Rattle.report.specs.Block.{adds_to_zero, is_expected, block_number, vertex_blocks, element_blocks, kind_of, count_of, end_number, blocks_from, body_number, file_number};

use crate::bytes::{sum, word};
use crate::error::FileError;
use crate::format::{
    BYTES_A_BLOCK, BlockKind, ELEMENTS_A_BLOCK, ELEMENTS_PLACE, MOST_ELEMENTS, MOST_VERTICES,
    VERTICES_A_BLOCK, VERTICES_PLACE, WORDS_A_BLOCK,
};

// The block k of a file, which may end before it.
#[derive(Clone, Copy)]
pub(crate) struct Block<'a> {
    pub bytes: &'a [u8],
    pub k: usize,
    ghost near: { k < 1000 },
}

impl<'a> Block<'a> {
    // Whether its words add to 0 modulo 2^32.
    fn adds_to_zero(self) -> bool
        ensures { result ≡ adds_to_zero self.entry.bytes.now self.entry.k }
    {
        sum(self.bytes, WORDS_A_BLOCK * self.k) == 0
    }

    // Whether it has this kind, its number and this count.
    fn is_expected(self, kind: BlockKind, count: usize) -> bool
        ensures { result ≡ is_expected self.entry.bytes.now self.entry.k (block_kind_number kind) count }
    {
        let i = WORDS_A_BLOCK * self.k;
        word(self.bytes, i) == u32::from(kind)
            && word(self.bytes, i + 1) as usize == self.k
            && word(self.bytes, i + 2) as usize == count
    }

    // Tests it, where this kind and count are expected.
    fn check(self, kind: BlockKind, count: usize) -> Result<(), FileError>
        requires { count < 1000 }
        ensures { number_of result ≡ block_number self.entry.bytes.now self.entry.k (block_kind_number kind) count }
    {
        if self.bytes.len() < BYTES_A_BLOCK * (self.k + 1) {
            return Err(FileError::WrongLength);
        }
        if !self.adds_to_zero() {
            return Err(FileError::WrongSum);
        }
        if !self.is_expected(kind, count) {
            return Err(FileError::UnexpectedBlock);
        }
        if !self.spare_zero(kind, count) {
            return Err(FileError::SpareWord);
        }
        Ok(())
    }

    // Tests that no bytes follow it.
    fn check_end(self) -> Result<(), FileError>
        ensures { number_of result ≡ end_number self.entry.bytes.now (self.entry.k + 1) }
    {
        if BYTES_A_BLOCK * (self.k + 1) < self.bytes.len() {
            Err(FileError::WrongLength)
        } else {
            Ok(())
        }
    }
}

// How many blocks n vertices take.
pub(crate) fn vertex_blocks(n: usize) -> usize
    requires { n ≤ most_vertices }
    ensures { (result ≡ vertex_blocks n) × (result ≤ 3) }
{
    (n + (VERTICES_A_BLOCK - 1)) / VERTICES_A_BLOCK
}

// How many blocks n elements take.
pub(crate) fn element_blocks(n: usize) -> usize
    requires { n ≤ most_elements }
    ensures { (result ≡ element_blocks n) × (result ≤ 1) }
{
    (n + (ELEMENTS_A_BLOCK - 1)) / ELEMENTS_A_BLOCK
}

// How many vertices and elements a file has, within the limits.
#[derive(Clone, Copy)]
struct Counts {
    vertices: usize,
    elements: usize,
    ghost few: { (vertices ≤ most_vertices) × (elements ≤ most_elements) },
}

impl Counts {
    // How many blocks they take.
    fn blocks(self) -> usize
        ensures { (result ≡ vertex_blocks self.vertices + element_blocks self.elements) × (result ≤ 4) }
    {
        vertex_blocks(self.vertices) + element_blocks(self.elements)
    }

    // The kind of the block k, from 1 on.
    fn kind_of(self, k: usize) -> BlockKind
        ensures { block_kind_number result ≡ kind_of self.vertices k }
    {
        if k <= vertex_blocks(self.vertices) {
            BlockKind::Vertices
        } else {
            BlockKind::Elements
        }
    }

    // The count of the block k, from 1 on.
    fn count_of(self, k: usize) -> usize
        requires { k < 1000 }
        ensures { (result ≡ count_of self.vertices self.elements k) × (result ≤ elements_a_block) }
    {
        let b = vertex_blocks(self.vertices);
        let before = k.saturating_sub(1);
        if k <= b {
            return self
                .vertices
                .saturating_sub(VERTICES_A_BLOCK * before)
                .min(VERTICES_A_BLOCK);
        }
        self.elements
            .saturating_sub(ELEMENTS_A_BLOCK * before.saturating_sub(b))
            .min(ELEMENTS_A_BLOCK)
    }
}

// Tests the blocks behind the header, and then the end.
fn check_blocks(s: &[u8], counts: Counts) -> Result<(), FileError>
    ensures { number_of result ≡ blocks_from s.now counts.vertices counts.elements (vertex_blocks counts.vertices + element_blocks counts.elements) 1 }
{
    let n = counts.blocks();
    for k in 1..n + 1 {
        Block { bytes: s, k }.check(counts.kind_of(k), counts.count_of(k))?;
    }
    Block { bytes: s, k: n }.check_end()
}

// Tests the counts against the limits, and then the blocks behind the header.
fn check_body(s: &[u8], vertices: usize, elements: usize) -> Result<(), FileError>
    ensures { number_of result ≡ body_number s.now vertices elements }
{
    if MOST_VERTICES < vertices || MOST_ELEMENTS < elements {
        return Err(FileError::TooLarge);
    }
    check_blocks(s, Counts { vertices, elements })
}

// Tests the blocks of the whole file.
pub(crate) fn check_file(s: &[u8]) -> Result<(), FileError>
    ensures { number_of result ≡ file_number s.now }
{
    Block { bytes: s, k: 0 }.check(BlockKind::Header, 1)?;
    check_body(
        s,
        word(s, VERTICES_PLACE) as usize,
        word(s, ELEMENTS_PLACE) as usize,
    )
}
