// The numbers of block files, once each, and `plot`'s limits: specs/Format.antt has the sentences. A size is a number of words, a place the
// number of a word in its block.
ghost use Rattle.std.specs.Prelude.{◌≡◌};
ghost use Rattle.report.specs.Format.{block_kind_number};

// The kinds of blocks.
#[derive(Clone, Copy, PartialEq, Eq, Debug)]
pub(crate) enum BlockKind {
    Header,
    Vertices,
    Elements,
}

impl From<BlockKind> for u32 {
    ghost from_gives = { λ kind n. n ≡ block_kind_number kind };

    fn from(kind: BlockKind) -> u32 {
        match kind {
            BlockKind::Header => 1,
            BlockKind::Vertices => 2,
            BlockKind::Elements => 3,
        }
    }
}

// A block.
pub(crate) const WORDS_A_BLOCK: usize = 128;

pub(crate) const BYTES_A_BLOCK: usize = 512;

pub(crate) const FIRST_RECORD: usize = 3;

pub(crate) const RECORD_ROOM: usize = 124;

// Vertex and element records.
pub(crate) const VERTEX_SIZE: usize = 13;

pub(crate) const VERTICES_A_BLOCK: usize = 9;

pub(crate) const ELEMENT_SIZE: usize = 4;

pub(crate) const ELEMENTS_A_BLOCK: usize = 31;

// The header's record.
pub(crate) const VERTICES_PLACE: usize = 3;

pub(crate) const ELEMENTS_PLACE: usize = 4;

pub(crate) const BOUNDS_PLACE: usize = 5;

pub(crate) const CELLS_PLACE: usize = 17;

pub(crate) const PERIODIC_PLACE: usize = 20;

pub(crate) const PASSES_PLACE: usize = 21;

pub(crate) const COUNT_PLACE: usize = 22;

pub(crate) const FIRST_FIELD: usize = 23;

pub(crate) const FIELD_PLACES: usize = 8;

pub(crate) const FIELD_SIZE: usize = 9;

pub(crate) const HEADER_SIZE: usize = 92;

// A level's kind and c.
pub(crate) const LEVEL_SIZE: usize = 3;

// The limits of `plot`.
pub(crate) const MOST_VERTICES: usize = 24;

pub(crate) const MOST_ELEMENTS: usize = 24;
