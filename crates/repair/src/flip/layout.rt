// Where `flip` keeps what it knows, in one lent slice for n elements and nv vertices:
//
//   slots    24 n  the elements, or GONE four times, four words each: those of the start, then those made
//   nexts    24 n  with heads and lengths the index of the slots (mesh, star.rt)
//   heads    nv
//   lengths  nv
//   faces    44 n  the elements of the start, behind them the shared faces (mesh, shared.rt), five words each
//   edges    32 n  the elements of the start, behind them the bad ones, behind them their edges (mesh, list.rt), two words each
//   area           the rest
//
// Kept by hand: the slice and its layout side by side, as in src/layout.rt. `RoomFor`, `Holds` and `Counted` name in one word what is asked
// of the two.
ghost use Rattle.std.specs.Prelude.{◌≡◌, ℕ, ◌+◌, ◌*◌, ◌≤◌};
ghost use Rattle.repair.specs.inside.flip.Layout.{FlipRoom, faces_at, edges_at, triple_at};

use mesh::element::Triple;
use mesh::star::Index;
use mesh::words::at;

// The layout for nv vertices and n elements, both within document 01's limits.
pub(crate) fn flip_layout(nv: u32, n: u32) -> Index
    requires { (nv ≤ 4096) × (n ≤ 16384) }
    ensures { (result.vertices ≡ nv) × ((m : ℕ) → 256 * n + 32 * nv + 1024 ≤ m → FlipRoom result n m) }
{
    let v = nv as usize;
    let k = n as usize;
    let lengths = 48 * k + v;
    Index {
        slots: 0,
        nexts: 24 * k,
        heads: 48 * k,
        lengths,
        area: lengths + v + 76 * k,
        room: 6 * n,
        vertices: nv,
    }
}

// Where the faces begin.
pub(crate) fn faces_at(x: Index) -> usize
    requires { x.lengths ≤ 1048576 }
    ensures { result ≡ faces_at x }
{
    x.lengths + (x.vertices as usize)
}

// Where the edges begin, for n elements.
pub(crate) fn edges_at(x: Index, n: u32) -> usize
    requires { x.lengths ≤ 1048576 }
    ensures { result ≡ edges_at x n }
{
    faces_at(x) + 44 * (n as usize)
}

// The triple whose three words begin at p, 0 past the end.
pub(crate) fn triple_from(work: &[u32], p: usize) -> Triple
    ensures { result ≡ triple_at work.now p }
{
    if work.len() < p {
        return Triple { a: 0, b: 0, c: 0 };
    }
    Triple {
        a: at(work, p),
        b: at(work, p + 1),
        c: at(work, p + 2),
    }
}
