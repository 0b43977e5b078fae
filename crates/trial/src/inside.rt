// The place that an inside count looks at, through `report`: files of one element, written by `write_file`, and their texts. The fields are the row's
// level, the plane x + y + z - 1.4, a ball about the mean of row 0 and one about its first vertex.
use crate::files::{BlockFile, Plot};
use geometry::bounds::{Bounds, Cells, Options};
use geometry::field::Field;
use geometry::point::Point;
use std::alloc::Global;
use std::io;

// The heights of the four points, and the level.
const HEIGHTS: [[f64; 5]; 5] = [
    // the first vertex on the level
    [0.5, 0.6, 0.7, 1.0, 0.5],
    // the mean on the level, and the next f64 above it
    [1.0, 1.0, 1.0, 3.0, 1.5],
    [1.0, 1.0, 1.0, 3.0, 1.4999999999999998],
    // the mean on the level by the sum left to right; above it from the other end and by pairs, in the last row by every other order and grouping
    // but those that are the same sum
    [0.85, 0.46, 0.25, 0.16, 0.43],
    [0.78, 0.08, 0.25, 0.53, 0.41],
];

fn point(x: f64, y: f64, z: f64) -> Point {
    Point { x, y, z }
}

// A box from 0 to 4 in one cell a direction, one pass.
fn options() -> Options {
    Options {
        bounds: Bounds {
            lo: point(0.0, 0.0, 0.0),
            hi: point(4.0, 4.0, 4.0),
        },
        cells: Cells { x: 1, y: 1, z: 1 },
        periodic: 0,
        passes: 1,
    }
}

fn fields([_, _, _, _, level]: [f64; 5]) -> [Field; 8] {
    let level = Field::Level(level);
    let plane = Field::Plane(point(1.0, 1.0, 1.0), -1.4);
    let mean = Field::Ball(point(0.4, 0.3, 0.7), 0.1);
    let first = Field::Ball(point(0.0, 0.0, 0.5), 0.01);
    [level, plane, mean, first, level, level, level, level]
}

// The four points with a row's heights.
fn points([a, b, c, d, _]: [f64; 5]) -> [[f64; 3]; 4] {
    [[0.0, 0.0, a], [0.8, 0.0, b], [0.0, 0.6, c], [0.8, 0.6, d]]
}

// Prints a row's text, the parameters being the points of another row.
fn line(
    rt: &impl Print,
    alloc: Global,
    (row, heights): (usize, [f64; 5]),
    (other, parameters): (usize, [f64; 5]),
) -> io::Result<()> {
    let plot = Plot {
        options: options(),
        count: 4,
        fields: fields(heights),
        parameters: &points(parameters),
        points: &points(heights),
        elements: &[[0, 1, 2, 3]],
    };
    println!(rt; "inside row {row} {other}")?;
    BlockFile::of(alloc, plot)?.print_text(rt, alloc)
}

pub(crate) fn run(rt: &impl Print, alloc: Global) -> io::Result<()> {
    for row in HEIGHTS.into_iter().enumerate() {
        line(rt, alloc, row, row)?;
    }
    line(rt, alloc, (0, HEIGHTS[0]), (3, HEIGHTS[3]))
}
