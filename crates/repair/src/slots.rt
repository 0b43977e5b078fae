// A slot of `improve` or of `flip`, read and written, and a pair read.
ghost use Rattle.std.specs.Prelude.{◌≡◌, ◌+◌, ◌*◌, ◌≤◌};
ghost use Rattle.mesh.specs.Words.{word_at};
ghost use Rattle.repair.specs.inside.flip.Layout.{live_of};
ghost use Rattle.repair.specs.inside.improve.Collapse.{slot_at, put_slot};

use crate::quality::element_from;
use mesh::element::{Pair, Tet};
use mesh::star::{GONE, Index};
use mesh::words::{at, put};

// The words of the slot e: an element, or GONE four times.
pub(crate) fn slot(work: &[u32], x: Index, e: u32) -> Tet
    requires { x.slots ≤ 1048576 }
    ensures { result ≡ slot_at x work.now e }
{
    let k = e as usize;
    element_from(work, x.slots + 4 * k)
}

// The element in the slot e, where it is not gone.
pub(crate) fn live_slot(work: &[u32], x: Index, e: u32) -> Option<Tet>
    requires { x.slots ≤ 1048576 }
    ensures { result ≡ live_of (slot_at x work.now e) }
{
    let t = slot(work, x, e);
    if t.a == GONE { None } else { Some(t) }
}

// The pair whose two words begin at p.
pub(crate) fn pair_from(work: &[u32], p: usize) -> Pair
    requires { p ≤ 4294967296 }
    ensures { (result.a ≡ word_at work.now p) × (result.b ≡ word_at work.now (p + 1)) }
{
    Pair {
        a: at(work, p),
        b: at(work, p + 1),
    }
}

// Writes the element t to the slot e.
pub(crate) fn put_slot(work: &mut [u32], x: Index, e: u32, t: Tet)
    requires { x.slots ≤ 1048576 }
    ensures { work.new ≡ put_slot work.old (x.slots + 4 * e) t }
{
    let k = e as usize;
    let p = x.slots + 4 * k;
    put(work, p, t.a);
    put(work, p + 1, t.b);
    put(work, p + 2, t.c);
    put(work, p + 3, t.d);
}
