// A vertex a goes into a vertex b, in the work slice of `improve` (layout.rt): b takes a's place in the slots and a's chain in the
// index, slots with both are gone, and a is flagged as replaced.
ghost use Rattle.std.specs.Prelude.{◌≡◌, ◌+◌, ◌≤◌, length, set};
ghost use Rattle.mesh.specs.Feature.{onto};
ghost use Rattle.repair.specs.inside.Layout.{Room, flags_at};
ghost use Rattle.repair.specs.inside.improve.Collapse.{slot_after, slot_replaced, slots_replaced, Goes, AllGo};

use crate::layout::{flags_at, pairs_at};
use crate::slots::{pair_from, put_slot, slot};
use mesh::element::{Pair, Tet, has_vertex};
use mesh::star::{GONE, Index};
use mesh::words::{at, put};

// e.b for e.a, and any other vertex as it is.
fn onto(e: Pair, v: u32) -> u32
    ensures { result ≡ onto e.a e.b v }
{
    if v == e.a { e.b } else { v }
}

// The slot t once e.a went into e.b.
fn slot_after(t: Tet, e: Pair) -> Tet
    ensures { result ≡ slot_after e.a e.b t }
{
    if !has_vertex(t, e.a) {
        return t;
    }
    if has_vertex(t, e.b) {
        return Tet {
            a: GONE,
            b: GONE,
            c: GONE,
            d: GONE,
        };
    }
    let [a, b, c, d] = [t.a, t.b, t.c, t.d].map(|v| onto(e, v));
    Tet { a, b, c, d }
}

// In the slot k e.a goes into e.b.
fn replace_in_slot(work: &mut [u32], x: Index, k: u32, e: Pair)
    requires { x.slots ≤ 40960 }
    ensures { work.new ≡ slot_replaced x e.a e.b k work.old }
{
    let t = slot(work, x, k);
    put_slot(work, x, k, slot_after(t, e));
}

// In the slots that the n words from p on name e.a goes into e.b.
fn replace_in_slots(work: &mut [u32], x: Index, p: usize, n: usize, e: Pair)
    requires { (x.slots ≤ 40960) × (x.slots ≤ length work.old) × (p + n ≤ length work.old) }
    ensures { work.new ≡ slots_replaced x e.a e.b n p work.old }
{
    let end = p + n;
    for q in p..end {
        let k = at(work, q);
        replace_in_slot(work, x, k, e);
    }
}

// Flags a as replaced.
fn flag(work: &mut [u32], x: Index, a: u32)
    ensures { work.new ≡ set work.old (flags_at x + a) 1 }
{
    put(work, flags_at(x) + (a as usize), 1);
}

// e.a goes into e.b. With the same vertex for both it is flagged only.
pub(crate) fn replace_one(work: &mut [u32], x: Index, e: Pair)
    requires { Room x x.room (length work.old) }
    ensures { Goes x x.room e.a e.b work.old work.new }
{
    if e.a != e.b {
        let n = x.star(work, e.a, e.a);
        replace_in_slots(work, x, x.area, n, e);
        x.join(work, e.b, e.a);
    }
    flag(work, x, e.a);
}

// The first vertex of each of the k pairs in the pairs' area goes into its second, from the last pair to the first.
pub(crate) fn replace_all(work: &mut [u32], x: Index, k: usize)
    requires { Room x x.room (length work.old) × (k ≤ x.vertices) }
    ensures { AllGo x x.room k work.old work.new }
{
    let p = pairs_at(x);
    for i in (0..k).rev() {
        let e = pair_from(work, p + 2 * i);
        replace_one(work, x, e);
    }
}
