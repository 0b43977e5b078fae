// A call of data/passes.txt: the pass with its inputs beside the mesh, and what it answers.
use crate::words::{Mask, Same, Words, masks};
use geometry::bounds::Options;
use geometry::field::Field;
use mesh::intake::{Settings, Sizes};
use mesh::refusal::Refusal;
use mesh::words::low_half;
use repair::answer::Made;
use repair::flip::flip;
use repair::improve::improve;
use repair::smooth::smooth;
use std::alloc::{AllocError, Global};

#[derive(Clone, Copy, Debug, PartialEq, Eq)]
pub(crate) enum Pass {
    Improve,
    Smooth,
    Flip,
}

// A number that no pass has.
#[derive(Clone, Copy, Debug, PartialEq, Eq)]
pub(crate) struct UnknownPass;

impl TryFrom<u64> for Pass {
    type Error = UnknownPass;

    fn try_from(number: u64) -> Result<Pass, UnknownPass> {
        match number {
            0 => Ok(Pass::Improve),
            1 => Ok(Pass::Smooth),
            2 => Ok(Pass::Flip),
            _ => Err(UnknownPass),
        }
    }
}

// How much of a list is read: of the five buffers, the regions and both work slices. What a list has behind is passed over.
const PARAMETERS: usize = 64;

const POINTS: usize = 64;

const MASKS: usize = 32;

const ELEMENTS: usize = 128;

const SURFACE: usize = 192;

const REGIONS: usize = 8;

const WORDS: usize = 8192;

const FLOATS: usize = 320;

// The five buffers of a mesh.
#[derive(Clone, Drop)]
pub(crate) struct Buffers {
    parameters: Vec<f64>,
    points: Vec<f64>,
    masks: Vec<u32>,
    elements: Vec<u32>,
    surface: Vec<u32>,
}

// Writes numbers over the front of a buffer, as far as there is room.
fn put<T: Copy>(buffer: &mut [T], front: &[T]) {
    for (place, x) in buffer.iter_mut().zip(front) {
        *place = *x;
    }
}

impl Buffers {
    // The five lists, whole buffers or the fronts of them.
    pub fn read(alloc: Global, words: &mut Words) -> Result<Buffers, AllocError> {
        Ok(Buffers {
            parameters: words.named(alloc, PARAMETERS)?,
            points: words.named(alloc, POINTS)?,
            masks: masks(alloc, &words.named::<Mask>(alloc, MASKS)?)?,
            elements: words.named(alloc, ELEMENTS)?,
            surface: words.named(alloc, SURFACE)?,
        })
    }

    // Writes other buffers over the fronts of these.
    fn put(&mut self, fronts: &Buffers) {
        put(&mut self.parameters, &fronts.parameters);
        put(&mut self.points, &fronts.points);
        put(&mut self.masks, &fronts.masks);
        put(&mut self.elements, &fronts.elements);
        put(&mut self.surface, &fronts.surface);
    }

    pub fn same(&self, other: &Buffers) -> bool {
        self.parameters.same(&other.parameters)
            && self.points.same(&other.points)
            && self.masks == other.masks
            && self.elements == other.elements
            && self.surface == other.surface
    }
}

// A pass's count, and the sizes that the mesh then has.
#[derive(Clone, Copy, Debug, PartialEq, Eq)]
pub(crate) struct Done {
    count: usize,
    vertices: usize,
    elements: usize,
    triples: usize,
}

impl Done {
    fn new(count: usize, sizes: Sizes) -> Done {
        Done {
            count,
            vertices: sizes.vertices,
            elements: sizes.elements,
            triples: sizes.triples,
        }
    }

    pub fn sizes(self) -> Sizes {
        Sizes {
            vertices: self.vertices,
            elements: self.elements,
            triples: self.triples,
        }
    }

    // What a pass made, or the number of its refusal.
    fn of(answer: Result<Made, Refusal>) -> Result<Done, u64> {
        answer
            .map(|made| Done::new(made.count, made.sizes))
            .map_err(|refusal| u64::from(u32::from(refusal)))
    }
}

// Reads a stored answer: what it says, and into `expected`, which has the buffers before the call, what it leaves of them.
pub(crate) fn read_answer(
    alloc: Global,
    words: &mut Words,
    expected: &mut Buffers,
) -> Result<Result<Done, u64>, AllocError> {
    words.skip();
    let number: u64 = words.read();
    if number != 0 {
        return Ok(Err(number));
    }
    let count = words.read();
    let done = Done::new(count, words.read());
    expected.put(&Buffers::read(alloc, words)?);
    Ok(Ok(done))
}

#[derive(Drop)]
pub(crate) struct Call {
    pass: Pass,
    options: Options,
    count: u32,
    fields: [Field; 8],
    regions: Option<Vec<u32>>,
    words: usize,
    floats: usize,
}

// The box and what stands beside it, each behind its name.
fn read_options(words: &mut Words) -> Options {
    words.skip();
    let bounds = words.read();
    words.skip();
    let cells = words.read();
    words.skip();
    let periodic = words.read();
    words.skip();
    Options {
        bounds,
        cells,
        periodic,
        passes: words.read(),
    }
}

// How many fields there are, and at most eight of them, which the count may be above.
fn read_fields(words: &mut Words) -> (u32, [Field; 8]) {
    words.skip();
    let number: u64 = words.read();
    let count = low_half(number);
    let mut fields = [Field::Level(0.0); 8];
    for (j, field) in (0..number).zip(fields.iter_mut()) {
        let read = words.read();
        if j < u64::from(count) {
            *field = read;
        }
    }
    (count, fields)
}

// The regions where the number before them is 1; they stand also behind another one that isn't 0.
fn read_regions(alloc: Global, words: &mut Words) -> Result<Option<Vec<u32>>, AllocError> {
    words.skip();
    let number: u64 = words.read();
    if number == 0 {
        return Ok(None);
    }
    let regions = words.front::<Mask>(alloc, REGIONS)?;
    if number != 1 {
        return Ok(None);
    }
    Ok(Some(masks(alloc, &regions)?))
}

impl Call {
    // The call of this pass, whose other words follow.
    pub fn read(alloc: Global, pass: Pass, words: &mut Words) -> Result<Call, AllocError> {
        let options = read_options(words);
        let (count, fields) = read_fields(words);
        let regions = read_regions(alloc, words)?;
        words.skip();
        Ok(Call {
            pass,
            options,
            count,
            fields,
            regions,
            words: words.count().min(WORDS),
            floats: words.count().min(FLOATS),
        })
    }

    // What the call answers on a mesh of these sizes, and whether it leaves zeros in both work slices, which hold other things before.
    pub fn run(
        &self,
        alloc: Global,
        sizes: Sizes,
        mesh: &mut Buffers,
    ) -> Result<(Result<Done, u64>, bool), AllocError> {
        let mut work = vec![in alloc; 7u32; self.words]?;
        let mut floats = vec![in alloc; 7.0; self.floats]?;
        let answer = self.answer(sizes, mesh, &mut work, &mut floats);
        let cleared = work.iter().all(|w| *w == 0) && floats.iter().all(|x| *x == 0.0);
        Ok((Done::of(answer), cleared))
    }

    fn answer(
        &self,
        sizes: Sizes,
        mesh: &mut Buffers,
        work: &mut [u32],
        floats: &mut [f64],
    ) -> Result<Made, Refusal> {
        let settings = Settings {
            sizes,
            options: self.options,
            count: self.count,
        };
        let Buffers {
            parameters,
            points,
            masks,
            elements,
            surface,
        } = mesh;
        match self.pass {
            Pass::Improve => improve(
                settings,
                self.fields,
                parameters,
                points,
                masks,
                elements,
                surface,
                work,
                floats,
            ),
            Pass::Smooth => smooth(
                settings,
                self.fields,
                self.regions.as_deref(),
                parameters,
                points,
                masks,
                elements,
                surface,
                work,
                floats,
            ),
            Pass::Flip => flip(
                settings,
                self.fields,
                parameters,
                points,
                masks,
                elements,
                surface,
                work,
                floats,
            ),
        }
    }
}
