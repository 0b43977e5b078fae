// The mesh that the table counts.
// Kept by hand: the elements stand at the front of a longer buffer (no heap), so their number stands beside it.
ghost use Rattle.std.specs.Prelude.{◌≤◌};

use mesh::vertex::Points;

// A mesh as it is counted: the points of its vertices, and `count` elements of four words each.
#[derive(Clone, Copy)]
pub(crate) struct Mesh<'a> {
    pub points: Points<'a>,
    pub elements: &'a [u32],
    pub count: usize,
    ghost few: { count ≤ 1000 },
}
