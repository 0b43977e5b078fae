// Block files in memory, and what `report` says of them.
use geometry::bounds::Options;
use geometry::field::Field;
use report::report::report;
use report::write::write_file;
use std::alloc::{AllocError, Global};
use std::{io, mem};

// The bytes of a block file.
#[derive(Clone, Drop)]
pub(crate) struct BlockFile {
    bytes: Vec<u8>,
}

// What `plot` writes a file of: fields, of which the first `count` are used, and a mesh without masks.
#[derive(Clone, Copy)]
pub(crate) struct Plot<'a> {
    pub options: Options,
    pub count: u32,
    pub fields: [Field; 8],
    pub parameters: &'a [[f64; 3]],
    pub points: &'a [[f64; 3]],
    pub elements: &'a [[u32; 4]],
}

impl BlockFile {
    // The file of at most 2,561 bytes that `write_file` writes for at most seven vertices.
    pub fn of(alloc: Global, plot: Plot) -> Result<BlockFile, AllocError> {
        let mut bytes = vec![in alloc; 0u8; 2561]?;
        let file = report::plot::Plot {
            options: plot.options,
            count: plot.count,
            fields: plot.fields,
            vertices: plot.points.len(),
            elements: plot.elements.len(),
            parameters: plot.parameters.as_flattened(),
            points: plot.points.as_flattened(),
            masks: &[0u32; 7],
            corners: plot.elements.as_flattened(),
        };
        let n = write_file(&file, &mut bytes);
        bytes.truncate(n);
        Ok(BlockFile { bytes })
    }

    pub fn len(&self) -> usize {
        self.bytes.len()
    }

    // Puts the file's bytes once more behind themselves.
    pub fn double(&mut self) -> Result<(), AllocError> {
        let again = self.bytes.clone()?;
        self.bytes.extend_from_slice(&again)
    }

    // Keeps the first n bytes.
    pub fn cut(&mut self, n: usize) {
        self.bytes.truncate(n);
    }

    // Changes these bits of the byte i.
    pub fn change_byte(&mut self, i: usize, bits: u8) {
        if let Some(byte) = self.bytes.get_mut(i) {
            *byte ^= bits;
        }
    }

    // Sets the words from i on, their lowest bytes first, and seals the block of the first anew.
    pub fn set_words(&mut self, i: usize, values: &[u32]) {
        let (words, _) = self.bytes.as_chunks_mut::<4>();
        for (word, value) in words.iter_mut().skip(i).zip(values) {
            *word = value.to_le_bytes();
        }
        self.seal(i / 128);
    }

    // Changes these bits of the word i, and seals its block anew.
    pub fn change_word(&mut self, i: usize, bits: u32) {
        let (words, _) = self.bytes.as_chunks_mut::<4>();
        if let Some(word) = words.get_mut(i) {
            *word = (u32::from_le_bytes(*word) ^ bits).to_le_bytes();
        }
        self.seal(i / 128);
    }

    // Makes the words of the block k add to 0, by its last word.
    fn seal(&mut self, k: usize) {
        let (blocks, _) = self.bytes.as_chunks_mut::<512>();
        if let Some(block) = blocks.get_mut(k) {
            let (words, _) = block.as_chunks_mut::<4>();
            if let Some((last, others)) = words.split_last_mut() {
                let sum = others.iter().fold(
                    0u32,
                    |sum, word| sum.wrapping_add(u32::from_le_bytes(*word)),
                );
                *last = 0u32.wrapping_sub(sum).to_le_bytes();
            }
        }
    }

    // Exchanges the blocks 1 and 2.
    pub fn exchange(&mut self) {
        let (blocks, _) = self.bytes.as_chunks_mut::<512>();
        if let [_, vertices, elements, ..] = blocks {
            mem::swap(vertices, elements);
        }
    }

    // What `report` says of the file, of a longer text the first 400 bytes.
    pub fn text(&self, alloc: Global) -> Result<Vec<u8>, AllocError> {
        let mut text = vec![in alloc; 0u8; 400]?;
        let n = report(&self.bytes, &mut text);
        text.truncate(n);
        Ok(text)
    }

    // Kept by hand: no plainer; `report` gives bytes, and a `Display` writes a `str`, which needs a test of them that may fail.
    pub fn print_text(&self, rt: &impl Print, alloc: Global) -> io::Result<()> {
        let text = self.text(alloc)?;
        rt.write_all(&text)
    }

    // The number of the refusal, and nothing where `report` gives a table.
    pub fn refusal(&self, alloc: Global) -> Result<Option<u32>, AllocError> {
        let text = self.text(alloc)?;
        Ok(number_in(&text))
    }
}

// The number in a text `refused N`.
fn number_in(text: &[u8]) -> Option<u32> {
    let line = str::from_utf8(text).ok()?;
    line.strip_prefix("refused ")?
        .trim_end()
        .parse::<u32>()
        .ok()
}
