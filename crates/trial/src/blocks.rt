// Block files through `report`, which gives what `plot` prints for the bytes of a file. The files are written by `write_file`: a box to 1 in one cell a
// direction, one pass, masks 0 and the field z - 0.5. Where answers are counted, a line has each number that came (0 for a table) and how often. The meshes:
//  0 document 01's example
//  1 no vertices
//  2 the example with the last two vertices of its element exchanged
//  3 an element twice
//  4 three elements on one face
//  5 two elements on one side of a face
//  6 two elements that meet in one vertex
// 23 does not come from `plot`: it computes the surface that `flip` is given.
ghost use Rattle.std.specs.Prelude.{◌<◌};

use crate::files::{BlockFile, Plot};
use crate::meshes::{self, Mesh};
use geometry::bounds::{Bounds, Cells, Options};
use geometry::field::Field;
use geometry::point::Point;
use mesh::words::{high_half, low_half};
use std::alloc::{AllocError, Global};
use std::collections::BTreeMap;
use std::ops::Range;
use std::{fmt, io};

// The words of the example that are given each value below 40: the first five, cells, periodic bits, passes, number of fields, the field's kind, and the
// first three of the other blocks.
const WORDS: [usize; 18] = [
    0x000, 0x001, 0x002, 0x003, 0x004, 0x011, 0x012, 0x013, 0x014, 0x015, 0x016, 0x017, 0x080,
    0x081, 0x082, 0x100, 0x101, 0x102,
];

// The one or two words that an edit sets; of two the low one comes first.
#[derive(Clone, Copy)]
enum Value {
    Word(u32),
    Float(u64),
}

// Changes to the example: a word's place and what is set from there on.
const EDITS: [(usize, Value); 46] = [
    // 25 vertices, 25 elements, the greatest word
    (0x003, Value::Word(0x0000_0019)),
    (0x004, Value::Word(0x0000_0019)),
    (0x003, Value::Word(0xffff_ffff)),
    // 9 fields, kind 3, periodic bit 8, 17 passes, cells 0, 4,096 and 4,097
    (0x016, Value::Word(0x0000_0009)),
    (0x017, Value::Word(0x0000_0003)),
    (0x014, Value::Word(0x0000_0008)),
    (0x015, Value::Word(0x0000_0011)),
    (0x011, Value::Word(0x0000_0000)),
    (0x012, Value::Word(0x0000_1000)),
    (0x013, Value::Word(0x0000_1001)),
    // bounds: lo is hi, lo above hi, 2^20, the next value, an infinity, a NaN
    (0x007, Value::Float(0x0000_0000_0000_0000)),
    (0x009, Value::Float(0x4000_0000_0000_0000)),
    (0x00f, Value::Float(0x4130_0000_0000_0000)),
    (0x00f, Value::Float(0x4130_0000_0000_0001)),
    (0x005, Value::Float(0xfff0_0000_0000_0000)),
    (0x00b, Value::Float(0x7ff8_0000_0000_0000)),
    // the field's number: 2^20, the next value, a NaN
    (0x018, Value::Float(0x4130_0000_0000_0000)),
    (0x018, Value::Float(0x4130_0000_0000_0001)),
    (0x018, Value::Float(0x7ff8_0000_0000_0000)),
    // coordinates: over 2^20 in size, an infinity, a NaN
    (0x089, Value::Float(0x4130_0000_0000_0001)),
    (0x096, Value::Float(0xc130_0000_0000_0001)),
    (0x0b4, Value::Float(0x7ff0_0000_0000_0000)),
    (0x0b2, Value::Float(0x7ff8_0000_0000_0000)),
    // parameters: below lo, above hi, a NaN
    (0x083, Value::Float(0x8000_0000_0000_0001)),
    (0x090, Value::Float(0x3ff0_0000_0000_0001)),
    (0x0aa, Value::Float(0x7ff8_0000_0000_0000)),
    // vertex numbers: 4, the greatest word, one twice
    (0x106, Value::Word(0x0000_0004)),
    (0x103, Value::Word(0xffff_ffff)),
    (0x104, Value::Word(0x0000_0003)),
    // numbers that a level does not use, a place that no field uses
    (0x01a, Value::Float(0x7ff8_0000_0000_0000)),
    (0x01e, Value::Float(0x7ff0_0000_0000_0000)),
    (0x020, Value::Word(0x0000_0003)),
    (0x021, Value::Float(0x7ff8_0000_0000_0000)),
    (0x056, Value::Word(0xffff_ffff)),
    // spare words
    (0x05f, Value::Word(0xffff_ffff)),
    (0x07e, Value::Word(0x0000_0001)),
    (0x0b7, Value::Word(0xffff_ffff)),
    (0x0fe, Value::Word(0x0000_0001)),
    (0x107, Value::Word(0xffff_ffff)),
    (0x17e, Value::Word(0x0000_0001)),
    // no field where there was one, -0.0 and a last word among the numbers that a level does not use, the last place's last word
    (0x016, Value::Word(0x0000_0000)),
    (0x01b, Value::Word(0x8000_0000)),
    (0x01f, Value::Word(0x0000_0009)),
    (0x05e, Value::Word(0x0000_0007)),
    // the last word that a level uses, the last one that a vertex uses
    (0x019, Value::Word(0x3ff0_0000)),
    (0x0b6, Value::Word(0x0000_0001)),
];

// The file of a mesh.
fn file_of(alloc: Global, mesh: &Mesh) -> Result<BlockFile, AllocError> {
    let low = mesh.low;
    let bounds = Bounds {
        lo: Point {
            x: low,
            y: low,
            z: low,
        },
        hi: Point {
            x: 1.0,
            y: 1.0,
            z: 1.0,
        },
    };
    let plot = Plot {
        options: Options {
            bounds,
            cells: Cells { x: 1, y: 1, z: 1 },
            periodic: 0,
            passes: 1,
        },
        count: 1,
        fields: [Field::Level(0.5); 8],
        parameters: mesh.points,
        points: mesh.points,
        elements: mesh.elements,
    };
    BlockFile::of(alloc, plot)
}

// How often each number came, 0 for a table.
#[derive(Drop)]
struct Counts(BTreeMap<u32, u32>);

impl fmt::Display for Counts {
    fn fmt<W: fmt::Write>(&self, f: &mut fmt::Formatter<W>) -> fmt::Result {
        for (number, times) in self.0.iter() {
            write!(f, " {number} {times}")?;
        }
        Ok(())
    }
}

// Counts the answers to the file with each of these changes.
fn count_answers<F: Fn(&mut BlockFile, u32)>(
    alloc: Global,
    file: &BlockFile,
    cases: Range<u32>,
    change: F,
) -> Result<Counts, AllocError>
    requires { F.IsAlwaysCallable change }
{
    let mut counts = BTreeMap::new(alloc);
    for case in cases {
        let mut changed = file.clone()?;
        change(&mut changed, case);
        let number = changed.refusal(alloc)?.unwrap_or(0);
        let times = counts.entry(number)?.or_insert(0u32);
        *times = times.saturating_add(1);
    }
    Ok(Counts(counts))
}

fn meshes(rt: &impl Print, alloc: Global) -> io::Result<()> {
    for (number, mesh) in meshes::all().iter().enumerate() {
        let file = file_of(alloc, mesh)?;
        println!(rt; "block mesh {number} {}", file.len())?;
        file.print_text(rt, alloc)?;
    }
    Ok(())
}

// One byte changed, each in turn.
fn changes(rt: &impl Print, alloc: Global, file: &BlockFile, bit: u8) -> io::Result<()> {
    let counts = count_answers(alloc, file, 0..1536, |f, i| {
        f.change_byte(i as usize, bit)
    })?;
    println!(rt; "block changed {bit}{counts}")
}

// The file with a second copy behind it, cut at each of these lengths. `plot` reads 2,561 bytes.
fn lengths(
    rt: &impl Print,
    alloc: Global,
    number: usize,
    mesh: &Mesh,
    cuts: Range<u32>,
) -> io::Result<()> {
    let mut file = file_of(alloc, mesh)?;
    file.double()?;
    let (start, end) = (cuts.start, cuts.end);
    let counts = count_answers(alloc, &file, cuts, |f, n| f.cut(n as usize))?;
    println!(rt; "block lengths {number} {start} {end}{counts}")
}

// Each of the words with each value below 40, its block sealed anew.
fn values(rt: &impl Print, alloc: Global, file: &BlockFile) -> io::Result<()> {
    for i in WORDS {
        let counts = count_answers(alloc, file, 0..40, |f, v| f.set_words(i, &[v]))?;
        println!(rt; "block values {i}{counts}")?;
    }
    Ok(())
}

// One bit changed in the words 3 to 126 of each block, each in turn, the block sealed anew.
fn words(rt: &impl Print, alloc: Global, file: &BlockFile, bit: u32) -> io::Result<()>
    requires { bit < 32 }
{
    let mask = 1u32 << bit;
    for k in 0..3u32 {
        let counts = count_answers(alloc, file, 128 * k + 3..128 * k + 127, |f, i| {
            f.change_word(i as usize, mask)
        })?;
        println!(rt; "block words {k} {bit}{counts}")?;
    }
    Ok(())
}

impl Value {
    fn number(self) -> u64 {
        match self {
            Value::Word(word) => u64::from(word),
            Value::Float(pattern) => pattern,
        }
    }

    // Sets one word or two, from the word i on.
    fn set(self, file: &mut BlockFile, i: usize) {
        match self {
            Value::Word(word) => file.set_words(i, &[word]),
            Value::Float(pattern) => file.set_words(i, &[low_half(pattern), high_half(pattern)]),
        }
    }
}

fn edits(rt: &impl Print, alloc: Global, file: &BlockFile) -> io::Result<()> {
    for (i, value) in EDITS {
        let mut edited = file.clone()?;
        value.set(&mut edited, i);
        print!(rt; "block edit {i} {:016x} ", value.number())?;
        edited.print_text(rt, alloc)?;
    }
    Ok(())
}

// The blocks of vertices and of elements exchanged.
fn exchanged(rt: &impl Print, alloc: Global, file: &BlockFile) -> io::Result<()> {
    let mut other = file.clone()?;
    other.exchange();
    print!(rt; "block exchanged ")?;
    other.print_text(rt, alloc)
}

pub(crate) fn run(rt: &impl Print, alloc: Global) -> io::Result<()> {
    meshes(rt, alloc)?;
    let example = meshes::corner();
    let file = file_of(alloc, &example)?;
    changes(rt, alloc, &file, 1)?;
    changes(rt, alloc, &file, 128)?;
    lengths(rt, alloc, 0, &example, 0..1536)?;
    lengths(rt, alloc, 0, &example, 1536..2562)?;
    lengths(rt, alloc, 1, &meshes::on_side(0, 0), 0..1025)?;
    values(rt, alloc, &file)?;
    words(rt, alloc, &file, 0)?;
    words(rt, alloc, &file, 31)?;
    edits(rt, alloc, &file)?;
    exchanged(rt, alloc, &file)
}
