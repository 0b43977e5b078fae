// Slots of `flip` emptied, and added behind the others.
ghost use Rattle.std.specs.Prelude.{◌≡◌, true, [], ◌∷◌, ◌++◌, ℕ, ◌+◌, ◌≤◌, ◌<◌, set};
ghost use Rattle.std.proofs.Math.Option.{none, some};
ghost use Rattle.mesh.specs.Intake.{well_numbered};
ghost use Rattle.repair.specs.Flip.{State};
ghost use Rattle.repair.specs.inside.flip.Layout.{SlotsStand, Kept};

use crate::slots::put_slot;
use mesh::element::Tet;
use mesh::star::{GONE, Index};

// Empties the slot e.
pub(crate) fn empty_slot(work: &mut [u32], x: Index, e: u32)
    requires { x.slots ≤ 1048576 }
    ensures { (n c : ℕ) (s : State) → e < c → SlotsStand x n c work.old s
        → SlotsStand x n c work.new (record { slots = set s.slots e none; flips = s.flips }) × Kept x work.old work.new }
{
    let gone = Tet {
        a: GONE,
        b: GONE,
        c: GONE,
        d: GONE,
    };
    put_slot(work, x, e, gone);
}

// Adds a slot with the element t behind the first c.
pub(crate) fn add_slot(work: &mut [u32], x: Index, c: u32, t: Tet)
    requires { (x.slots ≤ 1048576) × (c ≤ 131072) }
    ensures { (n : ℕ) (s : State) → c < x.room → well_numbered x.vertices t ≡ true → SlotsStand x n c work.old s
        → SlotsStand x n (c + 1) work.new (record { slots = s.slots ++ (some t ∷ []); flips = s.flips }) × Kept x work.old work.new }
{
    put_slot(work, x, c, t);
    x.append(work, c, c + 1);
}
