// How `improve` begins: groups, slots and their index in a work slice of zeros.
ghost use Rattle.std.specs.Prelude.{◌≡◌, true, [], ◌*◌, ◌≤◌, length};
ghost use Rattle.mesh.specs.Words.{zero_words};
ghost use Rattle.mesh.specs.Tests.{every};
ghost use Rattle.mesh.specs.Element.{tets};
ghost use Rattle.mesh.specs.Intake.{well_numbered};
ghost use Rattle.repair.specs.Mesh.{Mesh};
ghost use Rattle.repair.specs.inside.Layout.{Elements, Room};
ghost use Rattle.repair.specs.inside.improve.Partners.{vertices_of};
ghost use Rattle.repair.specs.inside.improve.Round.{ReadsOf, StandsOf};

use crate::improve::inputs::Inputs;
use crate::layout::{SORT_WORDS, lay_elements};

// Lays the groups, the slots and their index into the work slice.
pub(crate) fn begin(work: &mut [u32], given: &Inputs, elements: &[u32])
    requires room { Room given.now.index given.now.index.room (length work.old) }
    requires clean { work.old ≡ zero_words (length work.old) }
    requires many { length (vertices_of given.now) ≡ given.now.index.vertices }
    requires elements { Elements given.now.index.vertices given.now.index.room elements.now }
    ensures { (m : Mesh) → ReadsOf given.now m → StandsOf given.now m work.new (record { elements = tets given.now.index.room elements.entry.now; replaced = [] }) }
{
    let x = given.index;
    let e = SORT_WORDS * (x.vertices as usize);
    given.parameters.group_in(given.options, &mut work[0..e]);
    lay_elements(work, x, elements, x.room);
}
