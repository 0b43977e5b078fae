// Intake at its limits, and each of its numbers alone and before the others.
//
// The mesh has seven vertices, of which the last is in no element, and the elements 0 1 2 3 and
// 0 2 1 4 on a face.
ghost use Rattle.std.specs.Prelude.{◌≤◌};

use crate::patterns::float_of;
use geometry::bounds::{Bounds, Cells, Options};
use geometry::field::Field;
use geometry::point::Point;
use mesh::intake::{Settings, Sizes, intake};
use std::alloc::{AllocError, Global};
use std::io;

// What may be wrong with a call, and the refusal that it alone gives.
#[derive(Clone, Copy)]
enum Fault {
    // a mask too few: 10
    FewMasks = 1,
    // 17 passes: 11
    ManyPasses = 2,
    // a coordinate that is a NaN: 12
    NotANumber = 4,
    // an element with the vertex 9: 13
    FarVertex = 8,
    // an element with the vertices 1 0 3 2: 14
    Twice = 16,
    // a flat element: 15
    Flat = 32,
    // a third element on the face 0 1 2: 16
    ThirdOnFace = 64,
    // an element on the face 1 2 3 from the same side: 17
    SameSide = 128,
}

// A bit for each fault.
#[derive(Clone, Copy)]
struct Faults(u32);

impl Faults {
    fn has(self, fault: Fault) -> bool {
        self.0 & fault as u32 != 0
    }
}

// The elements that five of the faults add.
const ADDED: [(Fault, [u32; 4]); 5] = [
    (Fault::FarVertex, [0, 1, 2, 9]),
    (Fault::Twice, [1, 0, 3, 2]),
    (Fault::Flat, [0, 1, 3, 4]),
    (Fault::ThirdOnFace, [0, 2, 1, 5]),
    (Fault::SameSide, [5, 1, 2, 3]),
];

// The points of all vertices but the last.
const POINTS: [[f64; 3]; 6] = [
    [0.0, 0.0, 0.0],
    [1.0, 0.0, 0.0],
    [0.0, 1.0, 0.0],
    [0.0, 0.0, 1.0],
    [0.0, 0.0, -1.0],
    [-1.0, -1.0, -1.0],
];

// The lengths of the slices.
#[derive(Clone, Copy)]
struct Lengths {
    parameters: usize,
    points: usize,
    masks: usize,
    elements: usize,
    surface: usize,
    words: usize,
    floats: usize,
}

// What a call is tried with: the sizes, the lengths, the faults, the pattern of the last vertex's first
// coordinate, and the second element.
#[derive(Clone, Copy)]
struct Trial {
    sizes: Sizes,
    lengths: Lengths,
    faults: Faults,
    coordinate: u64,
    second: [u32; 4],
}

// The numbers at the front of a buffer of n places, and zeros behind them.
fn buffer<T: Copy>(alloc: Global, n: usize, front: &[T], zero: T) -> Result<Vec<T>, AllocError> {
    let mut all = Vec::new(alloc);
    all.extend_from_slice(front)?;
    all.resize(n, zero)?;
    Ok(all)
}

impl Trial {
    // Buffers exactly long enough for so many vertices and elements, and no fault.
    fn exact(vertices: usize, elements: usize) -> Trial
        requires { (vertices ≤ 5000) × (elements ≤ 1000) }
    {
        Trial {
            sizes: Sizes {
                vertices,
                elements,
                triples: 4 * elements,
            },
            lengths: Lengths {
                parameters: 3 * vertices,
                points: 3 * vertices,
                masks: vertices,
                elements: 8 * elements,
                surface: 12 * elements,
                words: 256 * elements + 32 * vertices + 1024,
                floats: 16 * vertices,
            },
            faults: Faults(0),
            coordinate: 0,
            second: [0, 2, 1, 4],
        }
    }

    fn options(&self) -> Options {
        Options {
            bounds: Bounds {
                lo: Point {
                    x: -2.0,
                    y: -2.0,
                    z: -2.0,
                },
                hi: Point {
                    x: 2.0,
                    y: 2.0,
                    z: 2.0,
                },
            },
            cells: Cells { x: 1, y: 1, z: 1 },
            periodic: 0,
            passes: if self.faults.has(Fault::ManyPasses) {
                17
            } else {
                16
            },
        }
    }

    // The points, the last vertex at its coordinate.
    fn points(&self, alloc: Global) -> Result<Vec<f64>, AllocError> {
        let mut front = Vec::new(alloc);
        front.extend_from_slice(POINTS.as_flattened())?;
        front.push(float_of(self.coordinate))?;
        buffer(alloc, self.lengths.points, &front, 0.0)
    }

    // The elements: two, and one for each fault that adds one, in their order.
    fn elements(&self, alloc: Global) -> Result<Vec<u32>, AllocError> {
        let mut front = Vec::new(alloc);
        front.extend_from_slice(&[0, 1, 2, 3])?;
        front.extend_from_slice(&self.second)?;
        for (fault, element) in ADDED {
            if self.faults.has(fault) {
                front.extend_from_slice(&element)?;
            }
        }
        buffer(alloc, self.lengths.elements, &front, 0)
    }

    // The number that intake gives, and 99 where the work that it was lent is not all zeros afterwards.
    fn number(&self, alloc: Global) -> Result<u32, AllocError> {
        let lengths = self.lengths;
        let mut work = vec![in alloc; 7u32; lengths.words]?;
        let mut floats = vec![in alloc; 7.0; lengths.floats]?;
        let parameters = vec![in alloc; 0.0; lengths.parameters]?;
        let found = intake(
            Settings {
                sizes: self.sizes,
                options: self.options(),
                count: 0,
            },
            [Field::Level(0.5); 8],
            &parameters,
            &self.points(alloc)?,
            lengths.masks,
            &self.elements(alloc)?,
            lengths.surface,
            &mut work,
            &mut floats,
        );
        let number = found.err().map_or(0, u32::from);
        let cleared = work.iter().all(|w| *w == 0) && floats.iter().all(|x| *x == 0.0);
        Ok(if cleared { number } else { 99 })
    }
}

// The lengths with one of them a place short: first none, then in their order.
fn short_lengths(exact: Lengths) -> [Lengths; 8] {
    [
        exact,
        Lengths {
            parameters: 20,
            ..exact
        },
        Lengths {
            points: 20,
            ..exact
        },
        Lengths { masks: 6, ..exact },
        Lengths {
            elements: 15,
            ..exact
        },
        Lengths {
            surface: 23,
            ..exact
        },
        Lengths {
            words: 1759,
            ..exact
        },
        Lengths {
            floats: 111,
            ..exact
        },
    ]
}

// Each of the buffers a place short, and 8: a triple too many.
fn short(rt: &impl Print, alloc: Global) -> io::Result<()> {
    let mut t = Trial::exact(7, 2);
    let exact = t.lengths;
    for (k, lengths) in short_lengths(exact).into_iter().enumerate() {
        t.lengths = lengths;
        println!(rt; "intake short {k} {}", t.number(alloc)?)?;
    }
    t.lengths = exact;
    t.sizes.triples = 9;
    println!(rt; "intake short 8 {}", t.number(alloc)?)
}

fn vertices(rt: &impl Print, alloc: Global) -> io::Result<()> {
    for n in 4096..4098 {
        println!(rt; "intake vertices {n} {}", Trial::exact(n, 2).number(alloc)?)?;
    }
    Ok(())
}

fn empty(rt: &impl Print, alloc: Global) -> io::Result<()> {
    for words in [1024, 1023] {
        let mut t = Trial::exact(0, 0);
        t.lengths.words = words;
        println!(rt; "intake empty {words} {}", t.number(alloc)?)?;
    }
    Ok(())
}

// The last vertex at a coordinate: 2^20 and the next value, both signs, -0, an infinity, a NaN.
const COORDINATES: [u64; 7] = [
    0x4130_0000_0000_0000,
    0x4130_0000_0000_0001,
    0xc130_0000_0000_0000,
    0xc130_0000_0000_0001,
    0x8000_0000_0000_0000,
    0x7ff0_0000_0000_0000,
    0x7ff8_0000_0000_0000,
];

fn coordinates(rt: &impl Print, alloc: Global) -> io::Result<()> {
    for coordinate in COORDINATES {
        let t = Trial {
            coordinate,
            ..Trial::exact(7, 2)
        };
        println!(rt; "intake coordinate {coordinate:016x} {}", t.number(alloc)?)?;
    }
    Ok(())
}

// The second element's vertices in every order, as decimal digits.
const ORDERS: [u32; 24] = [
    123, 132, 213, 231, 312, 321, 1023, 1032, 1203, 1230, 1302, 1320, 2013, 2031, 2103, 2130, 2301,
    2310, 3012, 3021, 3102, 3120, 3201, 3210,
];

fn orders(rt: &impl Print, alloc: Global) -> io::Result<()> {
    for order in ORDERS {
        let t = Trial {
            second: [
                order / 1000 % 10,
                order / 100 % 10,
                order / 10 % 10,
                order % 10,
            ],
            ..Trial::exact(7, 2)
        };
        println!(rt; "intake order {order} {}", t.number(alloc)?)?;
    }
    Ok(())
}

// Every set of faults.
fn fault_sets(rt: &impl Print, alloc: Global) -> io::Result<()> {
    for bits in 0..256u32 {
        let faults = Faults(bits);
        let added = ADDED.iter().filter(|(fault, _)| faults.has(*fault)).count();
        let mut t = Trial::exact(7, 2 + added);
        t.faults = faults;
        if faults.has(Fault::FewMasks) {
            t.lengths.masks = 6;
        }
        if faults.has(Fault::NotANumber) {
            t.coordinate = 0x7ff8_0000_0000_0000;
        }
        println!(rt; "intake faults {bits} {}", t.number(alloc)?)?;
    }
    Ok(())
}

pub(crate) fn run(rt: &impl Print, alloc: Global) -> io::Result<()> {
    short(rt, alloc)?;
    vertices(rt, alloc)?;
    empty(rt, alloc)?;
    coordinates(rt, alloc)?;
    orders(rt, alloc)?;
    fault_sets(rt, alloc)
}
