// The live elements that have certain vertices, in the work slice of `flip` (flip/layout.rt).
ghost use Rattle.std.specs.Prelude.{◌≡◌, [], ◌∷◌, ℕ, ◌<◌, length, take, drop};
ghost use Rattle.mesh.specs.Tests.{any};
ghost use Rattle.repair.specs.Flip.{State, slot_has, numbers_with};
ghost use Rattle.repair.specs.inside.Layout.{Same};
ghost use Rattle.repair.specs.inside.flip.Layout.{SlotsStand};

use mesh::element::Pair;
use mesh::star::Index;

// Whether a live element has u, v and w.
pub(crate) fn any_live(work: &[u32], x: Index, u: u32, v: u32, w: u32) -> bool
    ensures { (n c : ℕ) (s : State) → SlotsStand x n c work.now s → u < x.vertices → v < x.vertices
        → result ≡ any (slot_has (u ∷ v ∷ w ∷ [])) s.slots }
{
    x.any_with(work, u, v, w)
}

// Lists the numbers of the live elements that have both vertices of e, in order, at the area's front, and gives how many.
pub(crate) fn list_both(work: &mut [u32], x: Index, e: Pair) -> usize
    ensures { (n c : ℕ) (s : State) → SlotsStand x n c work.old s → e.a < x.vertices → e.b < x.vertices
        → (result ≡ length (numbers_with (e.a ∷ e.b ∷ []) s.slots))
        × (take result (drop x.area work.new) ≡ numbers_with (e.a ∷ e.b ∷ []) s.slots)
        × Same work.old work.new x.area (length work.old) }
{
    x.slots_with(work, e.a, e.b)
}
