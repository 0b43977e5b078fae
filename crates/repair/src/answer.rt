// What a pass answers where nothing refuses.
use mesh::intake::Sizes;

// How many collapses, moves or flips were made, and the sizes that the mesh now has.
#[derive(Clone, Copy)]
pub struct Made {
    pub count: usize,
    pub sizes: Sizes,
}
