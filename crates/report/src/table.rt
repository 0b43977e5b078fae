// The lines of the table that are one for each field or element.
ghost use Rattle.std.specs.Prelude.{◌+◌, ◌*◌, ◌≤◌, map, length};
ghost use Rattle.std.proofs.Math.IntN.{sub_ℕ};
ghost use Rattle.mesh.specs.Words.{points_in};
ghost use Rattle.mesh.specs.Element.{tets};
ghost use Rattle.report.specs.Table.{inside_count, low_count, inside_lines, element_lines, table_text};
ghost use Rattle.report.specs.inside.Meshes.{elements_in};
ghost use Rattle.report.specs.inside.Written.{Written};

use crate::counted::Mesh;
use crate::run::Changes;
use crate::text::{Difference, counts_line, element_line, inside_line, sizes_line, state_line};
use geometry::field::Field;

// Writes a line for each element.
pub(crate) fn element_lines(out: &mut [u8], at: usize, mesh: Mesh) -> usize
    requires { at ≤ 10000 }
    ensures { Written out.old out.new at result (element_lines (elements_in mesh.entry)) × (result ≤ at + 580 * mesh.entry.count) }
{
    let mut p = at;
    for i in 0..mesh.count {
        p = element_line(out, p, mesh.element(i));
    }
    p
}

// Writes a line for each field.
pub(crate) fn inside_lines(out: &mut [u8], at: usize, fields: &[Field], mesh: Mesh) -> usize
    requires { (at ≤ 10000) × (length fields.now ≤ 8) }
    ensures { Written out.old out.new at result (inside_lines 0 (map (inside_count (points_in mesh.entry.points) (elements_in mesh.entry)) fields.now))
        × (result ≤ at + 340 * length fields.now) }
{
    let mut p = at;
    for (j, &field) in fields.iter().enumerate() {
        p = inside_line(out, p, j, mesh.inside_count(field));
    }
    p
}

// Writes the table of a mesh, of what the passes changed and of the alternating count.
pub(crate) fn table_text(
    out: &mut [u8],
    changes: Changes,
    euler: Difference,
    fields: &[Field],
    mesh: Mesh,
) -> usize
    requires { length fields.now ≤ 8 }
    ensures { Written out.old out.new 0 result (table_text (record {
      vertices = mesh.entry.points.count;
      collapsed = changes.collapsed;
      moved = changes.moved;
      reconnected = changes.reconnected;
      low = low_count (points_in mesh.entry.points) (elements_in mesh.entry);
      euler = sub_ℕ euler.plus euler.minus;
      inside = map (inside_count (points_in mesh.entry.points) (elements_in mesh.entry)) fields.now;
      elements = elements_in mesh.entry;
    })) × (result ≤ 4000 + 580 * mesh.entry.count) }
{
    let low = mesh.low_count();
    let a = sizes_line(out, 0, mesh.points.count, mesh.count);
    let b = counts_line(out, a, changes);
    let c = state_line(out, b, low, euler);
    let d = inside_lines(out, c, fields, mesh);
    element_lines(out, d, mesh)
}
