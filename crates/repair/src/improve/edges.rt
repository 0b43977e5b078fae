// The edges of a round of `improve`, listed by length. The live elements are listed first, at the front of the area behind the layout
// (layout.rt), with scratch behind them.
ghost use Rattle.std.specs.Prelude.{◌≡◌, ◌*◌, ◌≤◌, length, Float};
ghost use Rattle.geometry.specs.Float.{◌*₆₄◌};
ghost use Rattle.geometry.specs.Literals.{three_quarters};
ghost use Rattle.mesh.specs.Measure.{measure};
ghost use Rattle.repair.specs.Mesh.{Mesh};
ghost use Rattle.repair.specs.Improve.{State, listed_edges};
ghost use Rattle.repair.specs.inside.Layout.{Same, edges_at, edges_in};
ghost use Rattle.repair.specs.inside.improve.Round.{ReadsOf, StandsOf, ReadyOf};

use crate::improve::inputs::Inputs;
use crate::layout::edges_at;

// Lists the edges of bad elements shorter than `limit`, by length then numbers, in the edges' area, and gives how many.
pub(crate) fn list_edges(work: &mut [u32], given: &Inputs, limit: f64) -> usize
    requires { ReadyOf given.now work.old }
    ensures upper_bound { result ≤ 6 * given.now.index.room }
    ensures listed { (m : Mesh) (s : State) (h : Float) → limit ≡ three_quarters *₆₄ h → ReadsOf given.now m → StandsOf given.now m work.old s
        → edges_in given.now.index result work.new ≡ listed_edges (measure m.points) h s.elements }
    ensures same { Same work.old work.new (edges_at given.now.index) (length work.old) }
{
    let x = given.index;
    let a = x.area;
    let k = x.live_elements(work, x.room as usize);
    let e = a + 52 * k;
    let r = given.points.short_edges_in(&mut work[a..e], k, limit);
    let from = a + 4 * k;
    let to = from + 4 * r;
    work.copy_within(from..to, edges_at(x));
    r
}
