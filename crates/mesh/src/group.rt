// Groups of vertices of equal rank, as sorted rows.
//
// A row has 7 words: the rank in x, y and z, each as its high and its low word, and the vertex. The rows of a group are a run, groups
// follow each other in rank order, and members in number order. An area for n vertices has 14 n words: the rows, and as many words of
// scratch, which are left 0.
//
// Kept by hand: rows and scratch in one lent area, since memory is lent and fixed (no heap), as in rows.rt.
ghost use Rattle.std.specs.Prelude.{◌≡◌};
ghost use Rattle.mesh.specs.Words.{points_in};
ghost use Rattle.mesh.specs.inside.Group.{group_row, grouped_area, group_row_at};
ghost use Rattle.mesh.specs.inside.RowWidths.{group_row-wide};

use crate::rows::{Rows, fill_rows, sort_rows};
use crate::vertex::{Points, fits, point_at};
use crate::words::{high_half, low_half};
use geometry::bounds::{Options, Ranks, rank};

// The row of the vertex v with this rank.
pub fn group_row(r: Ranks, v: u32) -> [u32; 7]
    ensures { result ≡ group_row r v }
{
    let Ranks { x, y, z } = r;
    [
        high_half(x),
        low_half(x),
        high_half(y),
        low_half(y),
        high_half(z),
        low_half(z),
        v,
    ]
}

// The rows of vertices, told by their parameters and the options.
#[derive(Clone, Copy)]
struct GroupRows<'a> {
    parameters: &'a [f64],
    options: Options,
}

impl<'a> Rows<7> for GroupRows<'a> {
    ghost words = { λ r s. group_row_at r.options r.parameters.now };

    #[tactic(auto, unfolding(crate::specs::inside::Group::group_row_at))]
    fn row(&self, _front: &[u32], v: usize) -> [u32; 7] {
        group_row(rank(point_at(self.parameters, v), self.options), v as u32)
    }

    ghost wide = { λ r s. group_row-wide r.options r.parameters.now };
}

impl<'a> Points<'a> {
    // The sorted rows of the vertices with these parameters, at the front of the area. Unchanged where it is too small.
    pub fn group_in(self, o: Options, area: &mut [u32])
        ensures { area.new ≡ grouped_area o (points_in self.entry) area.old }
    {
        if !fits(self.count, 14, area.len()) {
            return;
        }
        let rows = GroupRows {
            parameters: self.floats,
            options: o,
        };
        fill_rows(area, 0, self.count, &rows);
        sort_rows(area, self.count, 7);
    }
}
