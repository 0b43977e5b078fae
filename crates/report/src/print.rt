// The text of a run: its table, or the number that ended it.
ghost use Rattle.std.specs.Prelude.{◌≡◌, ◌*◌, ◌≤◌, map, length};
ghost use Rattle.mesh.specs.Words.{points_of};
ghost use Rattle.mesh.specs.inside.Complex.{Proper};
ghost use Rattle.mesh.specs.Element.{tets, vertices_of};
ghost use Rattle.mesh.specs.inside.Euler.{counts_of};
ghost use Rattle.report.specs.Table.{table_text};
ghost use Rattle.report.specs.inside.Ran.{ran_of};
ghost use Rattle.report.specs.Run.{sizes_left};
ghost use Rattle.report.specs.Report.{table_of, printed};
ghost use Rattle.report.specs.inside.Written.{Written, Ready};

use crate::buffers::Buffers;
use crate::counted::Mesh;
use crate::run::{Finished, Stopped};
use crate::table::table_text;
use crate::text::{Difference, refused_text};
use geometry::field::Field;
use mesh::euler::{Counts, euler_in};
use mesh::vertex::Points;
use mesh::words::copy_part;

// How many simplices of each size n elements have.
// Kept by hand: the elements stand at the front of a longer buffer (no heap), so their number stands beside it.
fn simplices(elements: &[u32], n: usize, work: &mut [u32]) -> Counts
    requires { (n ≤ 1000) × (4 * n ≤ length elements.now) × (28 * n ≤ length work.old) }
    ensures { result ≡ counts_of (tets n elements.now) }
{
    copy_part(elements, 0, work, 0, 4 * n);
    euler_in(work, n)
}

impl Buffers {
    // Writes the table of a run and of the mesh that it left.
    fn print_table(&mut self, out: &mut [u8], run: Finished, fields: &[Field]) -> usize
        requires { (length fields.now ≤ 8) × (4 * run.sizes.elements ≤ length self.old.elements)
            × Proper run.sizes.vertices (map vertices_of (tets run.sizes.elements self.old.elements)) }
        ensures { Written out.old out.new 0 result (table_text (table_of fields.now run.changes.collapsed run.changes.moved run.changes.reconnected
            (points_of run.sizes.vertices self.old.points) (tets run.sizes.elements self.old.elements))) × (result ≤ 50000) }
    {
        let n = run.sizes.elements;
        let counts = simplices(&self.elements, n, &mut self.work);
        let euler = Difference {
            plus: counts.vertices + counts.triangles,
            minus: counts.edges + counts.elements,
        };
        let points = Points {
            floats: &self.points,
            count: run.sizes.vertices,
        };
        let mesh = Mesh {
            points,
            elements: &self.elements,
            count: n,
        };
        table_text(out, run.changes, euler, fields, mesh)
    }

    // Writes the text of a run.
    pub(crate) fn print_run(
        &mut self,
        out: &mut [u8],
        ran: Result<Finished, Stopped>,
        fields: &[Field],
    ) -> usize
        requires { (length fields.now ≤ 8) × Ready (ran_of ran) self.old.elements }
        ensures { Written out.old out.new 0 result (printed fields.now (ran_of ran)
            (points_of (sizes_left (ran_of ran)).vertices self.old.points) (tets (sizes_left (ran_of ran)).elements self.old.elements)) × (result ≤ 50000) }
    {
        match ran {
            Ok(run) => self.print_table(out, run, fields),
            Err(stopped) => refused_text(out, u32::from(stopped.refusal) as usize),
        }
    }
}
