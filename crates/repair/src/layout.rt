// Where `improve` keeps what it knows, in one lent slice for n elements and nv vertices:
//
//   groups   7 nv  a row a vertex, its rank and its number, sorted
//   flags    nv    a word a vertex: not 0 once it is replaced
//   pairs    2 nv  the pairs of the direction that is tried
//   slots    4 n   the elements, or GONE four times
//   nexts    4 n   with heads and lengths the index of the slots (mesh, star.rt)
//   heads    nv
//   lengths  nv
//   edges    24 n  the round's edges, four words each: two of the length, two vertices
//   area           the rest
//
// Kept by hand: areas at offsets of one slice, since the C interface lends one buffer, and nothing is allocated. So the functions that take
// the slice take the layout beside it: one struct of both must say in each contract that it still holds the lent slice, and lend the slice
// out again for each call of mesh; no plainer. `ReadyOf` and `Room` name in one word what they ask of the two.
// Kept by hand: `x.slots ≤ 1048576` and `x.lengths ≤ 1048576` in contracts, since sums of offsets must not overflow. The functions that say
// so take the `Index`, which is mesh's: an invariant there would ask more of all who make one.
ghost use Rattle.std.specs.Prelude.{◌≡◌, ℕ, ◌+◌, ◌*◌, ◌≤◌};
ghost use Rattle.mesh.specs.Words.{copied};
ghost use Rattle.mesh.specs.inside.Star.{built};
ghost use Rattle.repair.specs.inside.Layout.{Room, flags_at, pairs_at, edges_at};

use mesh::star::Index;
use mesh::words::copy_part;

// How many words a row of the groups has (mesh, group.rt).
pub(crate) const ROW_WORDS: usize = 7;

// How many of them are the rank's. The vertex stands behind them.
pub(crate) const RANK_WORDS: usize = 6;

// How many words the groups take for a vertex while they are sorted: a row, and as much scratch.
pub(crate) const SORT_WORDS: usize = 14;

// A group, as rows of the sorted ones: its first row and how many there are.
// Kept by hand: a std Range is not Copy, and a group is passed on twice; a slice of the rows would hold the work slice, which is written
// meanwhile.
#[derive(Clone, Copy)]
pub(crate) struct Run {
    pub first: usize,
    pub size: usize,
}

// The layout for nv vertices and n elements, both within document 01's limits.
pub(crate) fn layout(nv: u32, n: u32) -> Index
    requires { (nv ≤ 4096) × (n ≤ 16384) }
    ensures { (result.vertices ≡ nv) × ((m : ℕ) → 256 * n + 32 * nv + 1024 ≤ m → Room result n m) }
{
    let v = nv as usize;
    let w = 4 * (n as usize);
    let slots = 10 * v;
    let lengths = slots + w + w + v;
    Index {
        slots,
        nexts: slots + w,
        heads: slots + w + w,
        lengths,
        area: lengths + v + 6 * w,
        room: n,
        vertices: nv,
    }
}

// Lays n elements into the first slots, and builds their index.
pub(crate) fn lay_elements(work: &mut [u32], x: Index, elements: &[u32], n: u32)
    ensures { work.new ≡ built x n (copied elements.now 0 work.old x.slots (4 * n)) }
{
    copy_part(elements, 0, work, x.slots, 4 * (n as usize));
    x.build(work, n);
}

// Where the flags begin.
pub(crate) fn flags_at(x: Index) -> usize
    ensures { result ≡ flags_at x }
{
    ROW_WORDS * (x.vertices as usize)
}

// Where the pairs begin.
pub(crate) fn pairs_at(x: Index) -> usize
    ensures { result ≡ pairs_at x }
{
    flags_at(x) + (x.vertices as usize)
}

// Where the edges begin.
pub(crate) fn edges_at(x: Index) -> usize
    requires { x.lengths ≤ 1048576 }
    ensures { result ≡ edges_at x }
{
    x.lengths + (x.vertices as usize)
}
