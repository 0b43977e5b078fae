// How `flip` begins: slots and their index, shared faces and edges listed, in the work slice (flip/layout.rt).
ghost use Rattle.std.specs.Prelude.{◌≡◌, true, ◌*◌, ◌≤◌, length};
ghost use Rattle.mesh.specs.Words.{points_in};
ghost use Rattle.mesh.specs.Element.{tets};
ghost use Rattle.repair.specs.inside.Layout.{Elements};
ghost use Rattle.repair.specs.inside.flip.Layout.{RoomFor};
ghost use Rattle.repair.specs.inside.flip.Tries.{Begun};
ghost use Rattle.repair.specs.inside.flip.Prepare.{FacesLaid, EdgesLaid, SlotsLaid};

use crate::flip::counts::Lists;
use crate::flip::inputs::Inputs;
use crate::flip::layout::{edges_at, faces_at};
use crate::layout::lay_elements;
use mesh::list::Listed;
use mesh::words::copy_part;

// Lists the shared faces behind a copy of the elements, and gives how many.
fn lay_faces(work: &mut [u32], given: &Inputs, elements: &[u32]) -> usize
    requires { RoomFor given.now work.old × (4 * given.now.elements ≤ length elements.now) }
    ensures { FacesLaid given.now.index given.now.elements (points_in given.now.points) (tets given.now.elements elements.now) result work.old work.new }
{
    let x = given.index;
    let m = given.elements as usize;
    let k = faces_at(x);
    let e = edges_at(x, given.elements);
    copy_part(elements, 0, work, k, 4 * m);
    given.points.shared_faces_in(&mut work[k..e], m)
}

// Lists the bad elements and their edges behind a copy of the elements, and gives how many.
fn lay_edges(work: &mut [u32], given: &Inputs, elements: &[u32]) -> Listed
    requires { RoomFor given.now work.old × (4 * given.now.elements ≤ length elements.now) }
    ensures { EdgesLaid given.now.index given.now.elements (points_in given.now.points) (tets given.now.elements elements.now) result work.old work.new }
{
    let x = given.index;
    let m = given.elements as usize;
    let k = edges_at(x, given.elements);
    let e = x.area;
    copy_part(elements, 0, work, k, 4 * m);
    given.points.bad_edges_in(&mut work[k..e], m)
}

// Lays the elements into the slots, with their index, in terms of the pass's state.
fn lay_slots(work: &mut [u32], given: &Inputs, elements: &[u32])
    requires flip_room { RoomFor given.now work.old }
    requires elements { Elements given.now.index.vertices given.now.elements elements.now }
    ensures { SlotsLaid given.now.index given.now.elements (tets given.now.elements elements.now) work.old work.new }
{
    lay_elements(work, given.index, elements, given.elements);
}

// Lays the slots, their index and the lists into the work slice.
pub(crate) fn begin_flip(work: &mut [u32], given: &Inputs, elements: &[u32]) -> Lists
    requires flip_room { RoomFor given.now work.old }
    requires elements { Elements given.now.index.vertices given.now.elements elements.now }
    ensures { Begun given.now.index given.now.elements (points_in given.now.points) (tets given.now.elements elements.now) result work.new }
{
    let faces = lay_faces(work, given, elements);
    let l = lay_edges(work, given, elements);
    lay_slots(work, given, elements);
    Lists {
        faces,
        bad: l.elements,
        edges: l.rows,
    }
}
