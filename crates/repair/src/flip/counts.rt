// What the trials of `flip` hand on: how many slots there are and how many flips were made; how much is listed at the start.

#[derive(Clone, Copy)]
pub struct Tried {
    pub slots: u32,
    pub flips: usize,
}

// How many shared faces, bad elements and edges of those stand in their areas.
#[derive(Clone, Copy)]
pub struct Lists {
    pub faces: usize,
    pub bad: usize,
    pub edges: usize,
}
