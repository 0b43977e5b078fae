// The elements of two or three slots replaced by others, in the work slice of `flip` (flip/layout.rt).
ghost use Rattle.std.specs.Prelude.{◌≡◌, true, ℕ, ◌+◌, ◌≤◌, length};
ghost use Rattle.mesh.specs.Words.{points_in};
ghost use Rattle.mesh.specs.Tests.{every};
ghost use Rattle.mesh.specs.Intake.{well_numbered};
ghost use Rattle.mesh.specs.Measure.{measure};
ghost use Rattle.repair.specs.Flip as def;
ghost use Rattle.repair.specs.inside.flip.Layout.{Kept};
ghost use Rattle.repair.specs.inside.flip.Tries.{Holds, Counted, Counts, Old};
ghost use Rattle.repair.specs.inside.flip.Replace.{Empties, Adds};

use crate::flip::counts::Tried;
use crate::flip::inputs::Inputs;
use crate::flip::orient::{is_accepted, orient};
use crate::flip::slots::{add_slot, empty_slot};
use mesh::element::Tet;
use mesh::star::Index;

// Empties the slots with these numbers.
fn empty_slots(work: &mut [u32], x: Index, at: &[u32])
    requires { x.slots ≤ 1048576 }
    ensures { Empties x at.now work.old work.new }
{
    for e in at {
        empty_slot(work, x, *e);
    }
}

// Adds a slot for each of the elements, behind the first c slots.
fn add_slots(work: &mut [u32], x: Index, c: u32, new: &[Tet])
    requires { (x.slots ≤ 1048576) × (c + length new.now ≤ 131072) }
    ensures { Adds x c new.now work.old work.new }
{
    for (i, t) in new.iter().enumerate() {
        add_slot(work, x, c + i as u32, *t);
    }
}

// Orients the candidates, and puts them in the place of the old elements in these slots where they are accepted.
pub(crate) fn replace(
    work: &mut [u32],
    given: &Inputs,
    t: Tried,
    at: &[u32],
    old: &[Tet],
    candidates: &mut [Tet],
) -> Tried
    requires counted { Counted given.now.index t }
    requires few { (length old.now ≤ 3) × (length candidates.old ≤ 3) }
    ensures by_index { (n : ℕ) (s : def.State) → Holds given.now.index n t work.old s → Old at.now old.now s
        → every (well_numbered given.now.index.vertices) candidates.old ≡ true → t.slots + length candidates.old ≤ given.now.index.room
        → Holds given.now.index n result work.new (def.replace (measure (points_in given.now.points)) s at.now candidates.old)
        × Kept given.now.index work.old work.new }
    ensures counts { Counts t result }
{
    let x = given.index;
    orient(given.points, candidates);
    if !is_accepted(given.points, old, candidates) {
        return t;
    }
    let more = candidates.len() as u32;
    if x.room < t.slots + more {
        return t;
    }
    empty_slots(work, x, at);
    add_slots(work, x, t.slots, candidates);
    Tried {
        slots: t.slots + more,
        flips: t.flips + 1,
    }
}
