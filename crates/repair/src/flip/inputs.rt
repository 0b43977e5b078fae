// What the trials of `flip` read.
use mesh::star::Index;
use mesh::vertex::Points;

// Where the areas of the work slice are, how many elements there are at the start, and the points of the vertices.
#[derive(Clone, Copy)]
pub struct Inputs<'a> {
    pub index: Index,
    pub elements: u32,
    pub points: Points<'a>,
}
