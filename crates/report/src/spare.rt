// The spare words of a block: the test of the number 30.
ghost use Rattle.std.specs.Prelude.{◌≡◌, ◌-◌, ◌<◌, ◌≤◌};
ghost use Rattle.mesh.specs.Words.{numbers};
ghost use Rattle.mesh.specs.Tests.{every};
ghost use Rattle.report.specs.Format.{block_kind_number, header_size, record_size, field_places, field_size};
ghost use Rattle.report.specs.Block.{zeros_from, rest_zero, used_in, place_zero, spare_zero};

use crate::block::Block;
use crate::bytes::word;
use crate::format::{
    BlockKind, COUNT_PLACE, ELEMENT_SIZE, FIELD_PLACES, FIELD_SIZE, FIRST_FIELD, FIRST_RECORD,
    HEADER_SIZE, LEVEL_SIZE, RECORD_ROOM, VERTEX_SIZE, WORDS_A_BLOCK,
};
use geometry::field::Kind;

// Whether the words from the word i to before the word `end` are zero.
fn zeros_to(s: &[u8], i: usize, end: usize) -> bool
    requires { end < 900000 }
    ensures { result ≡ zeros_from s.now i (end - i) }
{
    (i..end).all(|j| word(s, j) == 0)
}

// How many words a record of a block of this kind takes.
fn record_size(kind: BlockKind) -> usize
    ensures { (result ≡ record_size (block_kind_number kind)) × (result ≤ header_size) }
{
    match kind {
        BlockKind::Header => HEADER_SIZE,
        BlockKind::Vertices => VERTEX_SIZE,
        BlockKind::Elements => ELEMENT_SIZE,
    }
}

// How many words of the place j its field uses: none from the number of fields on.
fn used_in(s: &[u8], j: usize) -> usize
    requires { j < field_places }
    ensures { (result ≡ used_in s.now j) × (result ≤ field_size) }
{
    if word(s, COUNT_PLACE) as usize <= j {
        return 0;
    }
    if word(s, FIRST_FIELD + FIELD_SIZE * j) == u32::from(Kind::Level) {
        return LEVEL_SIZE;
    }
    FIELD_SIZE
}

// Whether the spare words of the place j are zero.
fn place_zero(s: &[u8], j: usize) -> bool
    requires { j < field_places }
    ensures { result ≡ place_zero s.now j }
{
    let first = FIRST_FIELD + FIELD_SIZE * j;
    zeros_to(s, first + used_in(s, j), first + FIELD_SIZE)
}

// Whether the spare words of all places are zero.
fn places_zero(s: &[u8]) -> bool
    ensures { result ≡ every (place_zero s.now) (numbers 0 field_places) }
{
    (0..FIELD_PLACES).all(|j| place_zero(s, j))
}

impl<'a> Block<'a> {
    // Whether its words behind so many records of this kind are zero.
    fn rest_zero(self, kind: BlockKind, count: usize) -> bool
        requires { count < 1000 }
        ensures { result ≡ rest_zero self.entry.bytes.now self.entry.k (block_kind_number kind) count }
    {
        let first = WORDS_A_BLOCK * self.k + FIRST_RECORD;
        let used = record_size(kind) * count;
        zeros_to(self.bytes, first + used, first + RECORD_ROOM)
    }

    // Whether its spare words, where this kind and count are expected, are zero.
    #[tactic(auto, unfolding(crate::specs::Block::spare_zero))]
    pub(crate) fn spare_zero(self, kind: BlockKind, count: usize) -> bool
        requires { count < 1000 }
        ensures { result ≡ spare_zero self.entry.bytes.now self.entry.k (block_kind_number kind) count }
    {
        self.rest_zero(kind, count)
            && match kind {
                BlockKind::Header => places_zero(self.bytes),
                BlockKind::Vertices | BlockKind::Elements => true,
            }
    }
}
