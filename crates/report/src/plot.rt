// What the file of a plot is written of.
// Kept by hand: a program that writes a file holds its vertices and elements in four slices, which may be longer than the counts; `write_file`
// tests that they are not shorter.
ghost use Rattle.std.specs.Prelude.{◌≤◌};
ghost use Rattle.report.specs.Format.{most_vertices, most_elements};

use geometry::bounds::Options;
use geometry::field::Field;

// The box and what stands beside it, the fields, of which the first `count` are used, and vertices and elements as they stand in the
// passes' slices: three parameters, three coordinates and a mask a vertex, four words an element.
#[derive(Clone, Copy)]
pub struct Plot<'a> {
    pub options: Options,
    pub count: u32,
    pub fields: [Field; 8],
    pub vertices: usize,
    pub elements: usize,
    pub parameters: &'a [f64],
    pub points: &'a [f64],
    pub masks: &'a [u32],
    pub corners: &'a [u32],
}

// A plot within the limits.
#[derive(Clone, Copy)]
pub(crate) struct File<'a> {
    pub plot: &'a Plot<'a>,
    ghost few: { (plot.now.vertices ≤ most_vertices) × (plot.now.elements ≤ most_elements) },
}
