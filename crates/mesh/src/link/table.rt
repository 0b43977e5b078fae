// The table of the marks at vertices: 4,096 words, a vertex v at the place v % 4096. The rows of an element's link that it does not leave
// out.
ghost use Rattle.std.specs.Prelude.{◌≡◌, ◌+◌, ◌*◌, ◌≤◌, length};
ghost use Rattle.mesh.specs.Complex.{keep};
ghost use Rattle.mesh.specs.Tests.{every};
ghost use Rattle.mesh.specs.inside.List.{Pushed};
ghost use Rattle.mesh.specs.inside.Euler.{spread};
ghost use Rattle.mesh.specs.inside.LinkAreas.{tets_of, table_of, Same, Kept};
ghost use Rattle.mesh.specs.inside.LinkRows.{element_rows};
ghost use Rattle.mesh.specs.inside.LinkTable.{table_word, told_mark, none_face, both_row, told_face, told_tet};

use crate::element::{Pair, Tet, Triple};
use crate::link::area::Area;
use crate::link::marks::subset;
use crate::rows::put_row;
use crate::vertex::tet_at;
use crate::words::{at, put, zero_all};

// The word of the vertex v.
fn table_word(table: &[u32], v: u32) -> u32
    ensures { result ≡ table_word table.now v }
{
    at(table, v as usize % 4096)
}

// Tells of the vertex v that an element with the mark m has it.
fn tell_mark(table: &mut [u32], v: u32, m: u32) {
    let old = table_word(table, v);
    put(table, v as usize % 4096, old | m);
}

// Tells it of the four vertices of an element.
fn tell_tet(table: &mut [u32], t: Tet, m: u32) {
    for v in t.vertices() {
        tell_mark(table, v, m);
    }
}

// Fills the table behind the first 60 words an element with the marks 1 and 2 of the elements.
pub(crate) fn fill_table(area: &mut Area<'_>, ab: Pair)
    ensures { Kept area.old area.new }
{
    let n = area.n;
    let start = area.table_start();
    let words = &mut *area.words;
    let (front, table) = words.split_at_mut(start);
    zero_all(table);
    for e in 0..n {
        let t = tet_at(front, e);
        tell_tet(table, t, ab.mark(&t.vertices()) % 3);
    }
}

// Whether v is told with the mark m, or with both by 3.
fn told_mark(table: &[u32], m: u32, v: u32) -> bool
    ensures { result ≡ told_mark table.now m v }
{
    let w = table_word(table, v);
    w == m || w == 3
}

// Whether all three vertices of a simplex are told with the mark m.
fn told_face(table: &[u32], m: u32, f: Triple) -> bool
    ensures { result ≡ told_face table.now m f.a f.b f.c }
{
    f.corners().iter().all(|v| told_mark(table, m, *v))
}

// Whether none of them is told with both marks.
fn none_face(table: &[u32], f: Triple) -> bool
    ensures { result ≡ none_face table.now f }
{
    !f.corners().iter().any(|v| told_mark(table, 3, *v))
}

// Whether the vertices of an element's face in the link are told with its mark, where it is 1 or 2.
#[tactic(auto, unfolding(crate::specs::inside::LinkTable::told_tet))]
fn tells_tet(table: &[u32], t: Tet, ab: Pair) -> bool
    ensures { result ≡ told_tet table.now ab.a ab.b t }
{
    let m = ab.mark(&t.vertices());
    m == 0 || m == 3 || told_face(table, m, ab.link_face(t))
}

// Whether the table behind the first 60 words an element tells the marks of all elements.
pub(crate) fn all_told(area: &Area<'_>, ab: Pair) -> bool
    ensures { result ≡ every (told_tet (table_of area.now) ab.a ab.b) (tets_of area.now) }
{
    let table = &area.words[area.table_start()..];
    (0..area.n).all(|e| tells_tet(table, tet_at(area.words, e), ab))
}

// Writes those rows of an element at p whose vertices are told with both marks, and gives how many.
fn put_told(words: &mut [u32], p: usize, table: &[u32], t: Tet, ab: Pair) -> usize
    requires { p + 28 ≤ length words.old }
    ensures { Pushed (keep (both_row table.now) (element_rows ab.a ab.b t)) 4 p words.old words.new result }
{
    let f = ab.link_face(t);
    let m = ab.mark(&t.vertices());
    if none_face(table, f) {
        return 0;
    }
    let mut c = 0;
    for k in 0..7 {
        let g = subset(f, k);
        if told_face(table, 3, g) {
            put_row(words, p + 4 * c, &[g.a, g.b, g.c, m]);
            c += 1;
        }
    }
    c
}

// Writes those rows of the elements behind them whose vertices are told with both marks, and gives how many.
pub(crate) fn list_told(area: &mut Area<'_>, ab: Pair) -> usize
    ensures { Same area.old area.new
        × Pushed (keep (both_row (table_of area.old)) (spread (element_rows ab.a ab.b) (tets_of area.old))) 4 (4 * area.old.n)
        area.old.words.now area.new.words.now result }
{
    let n = area.n;
    let start = area.table_start();
    let words = &mut *area.words;
    let (front, table) = words.split_at_mut(start);
    let mut c = 0;
    for e in 0..n {
        let t = tet_at(front, e);
        c += put_told(front, 4 * n + 4 * c, table, t, ab);
    }
    c
}
