// An area for the link tests of an edge.
ghost use Rattle.std.specs.Prelude.{◌≡◌, ◌*◌, ◌≤◌, length};

// n elements at the front of lent words, with room behind them for the rows of the tests.
//
// A function that splits the words begins with `let words = &mut *area.words`: split through `area` itself, a proof has no equation for the
// words that are left. A method for the two lines would say both parts' way back in its contract, as `split_at_mut` does.
//
// Kept by hand: that each element has four different vertices (`Proper`) stands in the contracts of the tests that need it, and is no
// invariant. No plainer: each function that writes in the words would have to show it of the elements again.
#[derive(Drop)]
pub(crate) struct Area<'a> {
    pub words: &'a mut [u32],
    pub n: usize,
    ghost few: { n ≤ 16384 },
    ghost room: { 88 * n ≤ length words.now },
}

impl<'a> Area<'a> {
    // Where the rows of the boundary faces begin: behind the elements and the keys of their faces.
    pub(crate) fn boundary_start(&self) -> usize
        ensures { result ≡ 16 * self.now.n }
    {
        16 * self.n
    }

    // Where the table of marks begins: behind the elements, their rows and as many words of scratch.
    pub(crate) fn table_start(&self) -> usize
        ensures { result ≡ 60 * self.now.n }
    {
        60 * self.n
    }
}
