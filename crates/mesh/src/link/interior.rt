// The interior link test: by the rows of all elements, or by those that the table of marks leaves.
ghost use Rattle.std.specs.Prelude.{◌≡◌, ◌*◌, ◌≤◌, true, drop};
ghost use Rattle.mesh.specs.Tests.{every};
ghost use Rattle.mesh.specs.Link.{interior_ok};
ghost use Rattle.mesh.specs.inside.Rows.{rows};
ghost use Rattle.mesh.specs.inside.Group.{runs, same_first};
ghost use Rattle.mesh.specs.inside.Manifold.{filled};
ghost use Rattle.mesh.specs.inside.LinkRows.{element_row_at, meet_run};
ghost use Rattle.mesh.specs.inside.LinkAreas.{tets_of, table_of, Proper, Same, Kept};
ghost use Rattle.mesh.specs.inside.LinkTable.{told_tet};
ghost use Rattle.mesh.specs.inside.RowWidths.{element_row-wide};

use crate::element::Pair;
use crate::link::area::Area;
use crate::link::marks::{links_meet, subset};
use crate::link::table::{all_told, fill_table, list_told};
use crate::rows::{Rows, fill_rows, sort_from};
use crate::vertex::tet_at;

// The rows of elements about the edge a b: 7 e + k for the row k of the element e.
#[derive(Clone, Copy)]
struct SimplexRows {
    ab: Pair,
}

impl Rows<4> for SimplexRows {
    ghost words = { λ r. element_row_at r.ab.a r.ab.b };

    #[tactic(auto, unfolding(crate::specs::inside::LinkRows::element_row_at))]
    fn row(&self, elements: &[u32], j: usize) -> [u32; 4] {
        let t = tet_at(elements, j / 7);
        let s = subset(self.ab.link_face(t), j % 7);
        [s.a, s.b, s.c, self.ab.mark(&t.vertices())]
    }

    ghost wide = { λ r. element_row-wide r.ab.a r.ab.b };
}

// Writes the rows of the elements behind them.
fn list_links(area: &mut Area<'_>, ab: Pair)
    ensures { Same area.old area.new
        × (area.new.words.now ≡ filled (element_row_at ab.a ab.b area.old.words.now) 4 (4 * area.old.n) (7 * area.old.n) area.old.words.now) }
{
    fill_rows(area.words, 4 * area.n, 7 * area.n, &SimplexRows { ab });
}

// The first test by the m sorted rows behind the elements.
fn rows_meet(area: &Area<'_>, m: usize) -> bool
    requires { m ≤ 7 * area.now.n }
    ensures { result ≡ every (meet_run 3) (runs (same_first 3) (rows 4 m (drop (4 * area.now.n) area.now.words.now))) }
{
    links_meet(area.words, 4 * area.n, m, 3)
}

// The first test by all rows.
fn interior_by_all(area: &mut Area<'_>, ab: Pair) -> bool
    requires { Proper area.old }
    ensures { (result ≡ interior_ok ab.a ab.b (tets_of area.old)) × Kept area.old area.new }
{
    let m = 7 * area.n;
    list_links(area, ab);
    sort_from(area.words, 4 * area.n, m, 4);
    rows_meet(area, m)
}

// The first test by the rows that the table leaves.
fn interior_by_table(area: &mut Area<'_>, ab: Pair) -> bool
    requires { Proper area.old × (every (told_tet (table_of area.old) ab.a ab.b) (tets_of area.old) ≡ true) }
    ensures { (result ≡ interior_ok ab.a ab.b (tets_of area.old)) × Kept area.old area.new }
{
    let c = list_told(area, ab);
    sort_from(area.words, 4 * area.n, c, 4);
    rows_meet(area, c)
}

// First test: "interior links meet exactly in the edge's link". By the table where the elements are many.
pub(crate) fn interior_ok_in(area: &mut Area<'_>, ab: Pair) -> bool
    requires { Proper area.old }
    ensures { (result ≡ interior_ok ab.a ab.b (tets_of area.old)) × Kept area.old area.new }
{
    if area.n < 256 {
        return interior_by_all(area, ab);
    }
    fill_table(area, ab);
    if all_told(area, ab) {
        return interior_by_table(area, ab);
    }
    interior_by_all(area, ab)
}
