// The writer of block files: a plot's file, block by block, each word as four bytes.
ghost use Rattle.std.specs.Prelude.{◌≡◌, ◌+◌, ◌*◌, ◌<◌, ◌≤◌, [], ◌∷◌, ◌++◌, length, slice_index_or};
ghost use Rattle.geometry.specs.declared.field.Field.TheVariants.{Level};
ghost use Rattle.geometry.specs.Float.{zero64};
ghost use Rattle.mesh.specs.Words.{zero_words};
ghost use Rattle.report.specs.Format.{block_kind_number, bytes_a_block, first_record, record_room, most_vertices, most_elements};
ghost use Rattle.report.specs.Bytes.{listed};
ghost use Rattle.report.specs.Write.{check_of, closed, block_front, options_words, field_words, place_words, header_front, vertex_record, element_record, records_from, file_block, blocks_of, has_room, file_into, file_size, plot_of};
ghost use Rattle.report.specs.inside.Put.{Put};
ghost use Rattle.report.specs.inside.Rows.{place_words-wide, vertex_record-wide, element_record-wide};

use crate::block::{element_blocks, vertex_blocks};
use crate::format::{
    BOUNDS_PLACE, BYTES_A_BLOCK, BlockKind, COUNT_PLACE, ELEMENT_SIZE, ELEMENTS_A_BLOCK,
    FIELD_PLACES, FIELD_SIZE, HEADER_SIZE, MOST_ELEMENTS, MOST_VERTICES, RECORD_ROOM, VERTEX_SIZE,
    VERTICES_A_BLOCK,
};
use crate::plot::{File, Plot};
use crate::rows::Rows;
use geometry::bounds::Options;
use geometry::field::Field;
use geometry::word::{high_word, low_word};
use mesh::vertex::point_at;
use mesh::words::{at, zero_all};

// Where the next word goes, and the sum of the block's words so far, modulo 2^32.
#[derive(Clone, Copy)]
struct Cursor {
    at: usize,
    sum: u32,
}

impl Cursor {
    // Writes a word.
    fn put_word(self, out: &mut [u8], w: u32) -> Cursor
        requires { self.at + 4 ≤ length out.old }
        ensures { Put out.old out.new self.at self.sum result.at result.sum (w ∷ []) × (result.at ≡ self.at + 4) }
    {
        out[self.at..self.at + 4].copy_from_slice(&w.to_le_bytes());
        Cursor {
            at: self.at + 4,
            sum: self.sum.wrapping_add(w),
        }
    }

    // Writes words.
    fn put_words(self, out: &mut [u8], words: &[u32]) -> Cursor
        requires { self.at + 4 * length words.now ≤ length out.old }
        ensures { Put out.old out.new self.at self.sum result.at result.sum words.now × (result.at ≡ self.at + 4 * length words.now) }
    {
        let mut c = self;
        for i in 0..words.len() {
            c = c.put_word(out, words[i]);
        }
        c
    }

    // Writes n words 0.
    fn put_zeros(self, out: &mut [u8], n: usize) -> Cursor
        requires { self.at + 4 * n ≤ length out.old }
        ensures { Put out.old out.new self.at self.sum result.at result.sum (zero_words n) × (result.at ≡ self.at + 4 * n) }
    {
        let mut c = self;
        for i in 0..n {
            c = c.put_word(out, 0);
        }
        c
    }

    // Writes the words of a block before its records.
    fn put_front(out: &mut [u8], at: usize, kind: BlockKind, number: usize, count: usize) -> Cursor
        requires { (at + 4 * first_record ≤ length out.old) × (number < 1000) × (count < 1000) }
        ensures { Put out.old out.new at 0 result.at result.sum (block_kind_number kind ∷ number ∷ count ∷ []) × (result.at ≡ at + 4 * first_record) }
    {
        let c = Cursor { at, sum: 0 };
        c.put_words(out, &[u32::from(kind), number as u32, count as u32])
    }

    // Writes the rows of n records from the record `first` on.
    fn put_rows<const W: usize, R: Rows<u32, W>>(
        self,
        out: &mut [u8],
        rows: &R,
        first: usize,
        n: usize,
    ) -> Cursor
        requires { (self.at + 4 * (W * n) ≤ length out.old) × (first + n ≤ 1000) }
        ensures { Put out.old out.new self.at self.sum result.at result.sum (records_from (R.told rows.now) first n) × (result.at ≡ self.at + 4 * (W * n)) }
    {
        let mut c = self;
        for i in 0..n {
            let mut words = [0; W];
            rows.put(first + i, &mut words);
            c = c.put_words(out, &words);
        }
        c
    }

    // Writes n words 0, and the word that makes the block's sum 0. Gives the place behind it.
    fn put_end(self, out: &mut [u8], n: usize) -> usize
        requires { self.at + 4 * n + 4 ≤ length out.old }
        ensures { Put out.old out.new self.at self.sum result 0 (zero_words n ++ (check_of self.sum ∷ [])) × (result ≡ self.at + 4 * n + 4) }
    {
        let c = self.put_zeros(out, n);
        c.put_word(out, std::num::wrapping_sub_u32(0, self.sum)).at
    }
}

// How many words of the header hold the box, the cells, periodic bits and passes.
const OPTIONS_SIZE: usize = COUNT_PLACE - BOUNDS_PLACE;

// The bounds, x lo, x hi, y, z, the cells, periodic bits and passes.
fn options_words(o: Options) -> [u32; OPTIONS_SIZE]
    ensures { result ≡ options_words o }
{
    let lo = o.bounds.lo;
    let hi = o.bounds.hi;
    [
        low_word(lo.x),
        high_word(lo.x),
        low_word(hi.x),
        high_word(hi.x),
        low_word(lo.y),
        high_word(lo.y),
        low_word(hi.y),
        high_word(hi.y),
        low_word(lo.z),
        high_word(lo.z),
        low_word(hi.z),
        high_word(hi.z),
        o.cells.x,
        o.cells.y,
        o.cells.z,
        o.periodic,
        o.passes,
    ]
}

// A field: its kind and four f64, those that the kind does not use as 0.
fn field_words(f: Field) -> [u32; FIELD_SIZE]
    ensures { result ≡ field_words f }
{
    let kind = u32::from(f.kind());
    match f {
        Field::Level(x) => [kind, low_word(x), high_word(x), 0, 0, 0, 0, 0, 0],
        Field::Plane(p, x) | Field::Ball(p, x) => [
            kind,
            low_word(p.x),
            high_word(p.x),
            low_word(p.y),
            high_word(p.y),
            low_word(p.z),
            high_word(p.z),
            low_word(x),
            high_word(x),
        ],
    }
}

// The field in the place j, and a level 0 past the last.
fn field_at(fields: &[Field], j: usize) -> Field
    ensures { result ≡ slice_index_or fields.now j (Level zero64) }
{
    fields.get(j).copied().unwrap_or(Field::Level(0.0))
}

// The places of a plot's fields: the field where the place is used, else zeros.
#[derive(Clone, Copy)]
struct Places<'a>(&'a Plot<'a>);

impl<'a> Rows<u32, FIELD_SIZE> for Places<'a> {
    ghost told = { λ r. place_words r.0.now.count r.0.now.fields };

    fn put(&self, j: usize, to: &mut [u32]) {
        if j < self.0.count as usize {
            to.copy_from_slice(&field_words(field_at(&self.0.fields, j)));
        } else {
            zero_all(to);
        }
    }

    ghost wide = { λ r. place_words-wide r.0.now.count r.0.now.fields };
}

// The records of a plot's vertices.
#[derive(Clone, Copy)]
struct Vertices<'a>(&'a Plot<'a>);

impl<'a> Rows<u32, VERTEX_SIZE> for Vertices<'a> {
    ghost told = { λ r. vertex_record r.0.now.parameters.now r.0.now.points.now r.0.now.masks.now };

    #[tactic(auto, unfolding(crate::specs::Write::vertex_record))]
    fn put(&self, v: usize, to: &mut [u32]) {
        let p = point_at(self.0.parameters, v);
        let q = point_at(self.0.points, v);
        to.copy_from_slice(&[
            low_word(p.x),
            high_word(p.x),
            low_word(p.y),
            high_word(p.y),
            low_word(p.z),
            high_word(p.z),
            low_word(q.x),
            high_word(q.x),
            low_word(q.y),
            high_word(q.y),
            low_word(q.z),
            high_word(q.z),
            at(self.0.masks, v),
        ]);
    }

    ghost wide = { λ r. vertex_record-wide r.0.now.parameters.now r.0.now.points.now r.0.now.masks.now };
}

// The records of a plot's elements.
#[derive(Clone, Copy)]
struct Elements<'a>(&'a Plot<'a>);

impl<'a> Rows<u32, ELEMENT_SIZE> for Elements<'a> {
    ghost told = { λ r. element_record r.0.now.corners.now };

    #[tactic(auto, unfolding(crate::specs::Write::element_record))]
    fn put(&self, e: usize, to: &mut [u32]) {
        let corners = self.0.corners;
        to.copy_from_slice(&[
            at(corners, 4 * e),
            at(corners, 4 * e + 1),
            at(corners, 4 * e + 2),
            at(corners, 4 * e + 3),
        ]);
    }

    ghost wide = { λ r. element_record-wide r.0.now.corners.now };
}

// Writes the block k, of this kind, with n records from the record `first` on.
fn put_records<const W: usize, R: Rows<u32, W>>(
    out: &mut [u8],
    at: usize,
    kind: BlockKind,
    k: usize,
    rows: &R,
    first: usize,
    n: usize,
) -> usize
    requires { (at + bytes_a_block ≤ length out.old) × (k < 1000) × (n < 1000) × (first + n ≤ 1000) × (W * n ≤ record_room) }
    ensures { Put out.old out.new at 0 result 0 (closed (block_front (block_kind_number kind) k n (records_from (R.told rows.now) first n))) × (result ≡ at + bytes_a_block) }
{
    let c = Cursor::put_front(out, at, kind, k, n);
    let d = c.put_rows(out, rows, first, n);
    d.put_end(out, RECORD_ROOM - W * n)
}

impl<'a> File<'a> {
    // How many blocks the file has.
    fn blocks(&self) -> usize
        ensures { (result ≡ blocks_of self.now.plot.now.vertices self.now.plot.now.elements) × (result ≤ 5) }
    {
        1 + vertex_blocks(self.plot.vertices) + element_blocks(self.plot.elements)
    }

    // Writes the header block.
    fn put_header(&self, out: &mut [u8], at: usize) -> usize
        requires { at + bytes_a_block ≤ length out.old }
        ensures { Put out.old out.new at 0 result 0 (closed (header_front self.now.plot.now.options self.now.plot.now.count self.now.plot.now.fields self.now.plot.now.vertices self.now.plot.now.elements))
            × (result ≡ at + bytes_a_block) }
    {
        let plot = self.plot;
        let c = Cursor::put_front(out, at, BlockKind::Header, 0, 1);
        let d = c.put_words(out, &[plot.vertices as u32, plot.elements as u32]);
        let e = d.put_words(out, &options_words(plot.options));
        let f = e.put_word(out, plot.count);
        let g = f.put_rows(out, &Places(plot), 0, FIELD_PLACES);
        g.put_end(out, RECORD_ROOM - HEADER_SIZE)
    }

    // Writes the block k.
    fn put_block(&self, out: &mut [u8], at: usize, k: usize) -> usize
        requires { (at + bytes_a_block ≤ length out.old) × (k < blocks_of self.now.plot.now.vertices self.now.plot.now.elements) }
        ensures { Put out.old out.new at 0 result 0 (file_block (plot_of self.now.plot.now) k) × (result ≡ at + bytes_a_block) }
    {
        if k == 0 {
            return self.put_header(out, at);
        }
        let plot = self.plot;
        let before = vertex_blocks(plot.vertices);
        if k <= before {
            let first = VERTICES_A_BLOCK * (k - 1);
            let n = VERTICES_A_BLOCK.min(plot.vertices - first);
            return put_records(out, at, BlockKind::Vertices, k, &Vertices(plot), first, n);
        }
        let first = ELEMENTS_A_BLOCK * (k - 1 - before);
        let n = ELEMENTS_A_BLOCK.min(plot.elements - first);
        put_records(out, at, BlockKind::Elements, k, &Elements(plot), first, n)
    }

    // Writes the first n blocks.
    fn put_blocks(&self, out: &mut [u8], n: usize) -> usize
        requires { (bytes_a_block * n ≤ length out.old) × (n ≤ blocks_of self.now.plot.now.vertices self.now.plot.now.elements) }
        ensures { Put out.old out.new 0 0 result 0 (listed (file_block (plot_of self.now.plot.now)) n) × (result ≡ bytes_a_block * n) }
    {
        let mut at = 0;
        for k in 0..n {
            at = self.put_block(out, at, k);
        }
        at
    }
}

// Whether the counts are within the limits, the slices hold as many and the file has room.
#[tactic(auto, unfolding(crate::specs::Write::room_for))]
fn has_room(plot: &Plot, room: usize) -> bool
    ensures { result ≡ has_room (plot_of plot.now) room }
{
    plot.vertices <= MOST_VERTICES
        && plot.elements <= MOST_ELEMENTS
        && plot.count as usize <= FIELD_PLACES
        && 3 * plot.vertices <= plot.parameters.len()
        && 3 * plot.vertices <= plot.points.len()
        && plot.vertices <= plot.masks.len()
        && 4 * plot.elements <= plot.corners.len()
        && BYTES_A_BLOCK * (1 + vertex_blocks(plot.vertices) + element_blocks(plot.elements))
            <= room
}

// Writes a plot's block file to the front of `out`, and gives its length. Writes nothing and gives 0
// for vertices, elements or fields over their limits, and where a slice is too short.
pub fn write_file(plot: &Plot, out: &mut [u8]) -> usize
    ensures value { result ≡ file_size (plot_of plot.now) (length out.old) }
    ensures out_after { out.new ≡ file_into (plot_of plot.now) out.old }
{
    if !has_room(plot, out.len()) {
        return 0;
    }
    let file = File { plot };
    file.put_blocks(out, file.blocks())
}
