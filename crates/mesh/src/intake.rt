// Intake: the conditions that every pass tests before it begins, in document 01's order.
//
// Kept by hand: the C interface lends a call's slices one by one, longer than the mesh is, and eight fields of which `count` count; so
// `check_numbers` and `intake` take them one by one. n elements stand at the front of a slice that has room for new ones behind them:
// `tet_at(elements, e)` with n beside it is as short as a method would be.
ghost use Rattle.std.specs.Prelude.{◌≡◌, ◌+◌, ◌*◌, ◌≤◌, not, ◌&&◌, ◌||◌, [], ◌∷◌, ◌++◌, map, length, drop, nat_le};
ghost use Rattle.std.proofs.Math.Seq.{paste};
ghost use Rattle.mesh.specs.Boundary.{boundary_number};
ghost use Rattle.mesh.specs.Element.{tets, corners_of, vertices_of};
ghost use Rattle.mesh.specs.Intake.{too_many, too_short, sized, sized_point, sized_field, bounds_in, cells_in, options_in, fields_in, in_box, well_numbered, upright, given_of, intake};
ghost use Rattle.mesh.specs.inside.Intake.{tet_at, point_below, vertex_row, none_twice, settings_number, mesh_number, intake_numbers};
ghost use Rattle.mesh.specs.inside.Rows.{rows, le_row};
ghost use Rattle.mesh.specs.inside.RowWidths.{sorted_row-wide};
ghost use Rattle.mesh.specs.Refusal.{number_in};
ghost use Rattle.mesh.specs.Words.{flat, zero_words, zero_floats, points_in};
ghost use Rattle.mesh.specs.Sort.{insert, sort};
ghost use Rattle.mesh.specs.Tests.{every, under};

use crate::boundary::boundary_in;
use crate::element::{Tet, four_different};
use crate::refusal::Refusal;
use crate::rows::{Rows, eq_rows, fill_rows, sort_rows};
use crate::vertex::{Points, point_at, tet_at};
use crate::words::{copy_over, zero_all};
use geometry::bounds::{Bounds, Options};
use geometry::field::Field;
use geometry::point::Point;

// How many vertices, elements and surface triples a mesh has.
#[derive(Clone, Copy)]
pub struct Sizes {
    pub vertices: usize,
    pub elements: usize,
    pub triples: usize,
}

// What stands beside the mesh in a call: its sizes, the options, and how many of the fields count.
#[derive(Clone, Copy)]
pub struct Settings {
    pub sizes: Sizes,
    pub options: Options,
    pub count: u32,
}

// How long the lent slices are.
#[derive(Clone, Copy)]
pub struct Lengths {
    pub parameters: usize,
    pub points: usize,
    pub masks: usize,
    pub elements: usize,
    pub surface: usize,
    pub words: usize,
    pub floats: usize,
}

// Whether a count is over its limit.
fn too_many(s: Sizes) -> bool
    ensures { result ≡ too_many s }
{
    4096 < s.vertices || 16384 < s.elements || 4 * s.elements < s.triples
}

// Whether a slice is too short for counts within their limits.
fn too_short(s: Sizes, l: Lengths) -> bool
    requires { (s.vertices ≤ 4096) × (s.elements ≤ 16384) }
    ensures { result ≡ too_short s l }
{
    l.parameters < 3 * s.vertices
        || l.points < 3 * s.vertices
        || l.masks < s.vertices
        || l.surface < 3 * (4 * s.elements)
        || l.elements < 4 * (2 * s.elements)
        || l.words < 256 * s.elements + 32 * s.vertices + 1024
        || l.floats < 16 * s.vertices
}

// Whether the counts are within their limits and the slices long enough: not number 10.
fn room(s: Sizes, l: Lengths) -> bool
    ensures { result ≡ not (too_many s || too_short s l) }
{
    !(too_many(s) || too_short(s, l))
}

// Whether x is finite and not over 2^20 in size.
fn sized(x: f64) -> bool
    ensures { result ≡ sized x }
{
    -1048576.0 <= x && x <= 1048576.0
}

// The same of each coordinate.
fn sized_point(p: Point) -> bool
    ensures { result ≡ sized_point p }
{
    sized(p.x) && sized(p.y) && sized(p.z)
}

// The same of each number that the field's kind uses.
fn sized_field(f: Field) -> bool
    ensures { result ≡ sized_field f }
{
    match f {
        Field::Level(c) => sized(c),
        Field::Plane(n, d) => sized_point(n) && sized(d),
        Field::Ball(c, r) => sized_point(c) && sized(r),
    }
}

// Whether p is below q in each direction.
fn point_below(p: Point, q: Point) -> bool
    ensures { result ≡ point_below p q }
{
    p.x < q.x && p.y < q.y && p.z < q.z
}

// Whether every bound is sized and lo below hi.
fn bounds_in(b: Bounds) -> bool
    ensures { result ≡ bounds_in b }
{
    sized_point(b.lo) && sized_point(b.hi) && point_below(b.lo, b.hi)
}

// Whether a number of cells is within 1 to 4,096.
fn cells_in(n: u32) -> bool
    ensures { result ≡ cells_in n }
{
    1 <= n && n <= 4096
}

// Whether bounds, cells, passes and periodic bits are allowed.
fn options_in(o: Options) -> bool
    ensures { result ≡ options_in o }
{
    bounds_in(o.bounds)
        && cells_in(o.cells.x)
        && cells_in(o.cells.y)
        && cells_in(o.cells.z)
        && o.passes <= 16
        && o.periodic <= 7
}

// Whether there are at most 8 fields, and the numbers of those that count are sized.
fn fields_in(count: u32, fields: [Field; 8]) -> bool
    ensures { result ≡ fields_in count fields }
{
    count <= 8 && fields[..count as usize].iter().all(|f| sized_field(*f))
}

// Whether the options and the fields are allowed: not number 11.
fn settings_in(o: Options, count: u32, fields: [Field; 8]) -> bool
    ensures { result ≡ (options_in o && fields_in count fields) }
{
    options_in(o) && fields_in(count, fields)
}

// Whether p is within lo to hi in each direction.
pub fn in_box(b: Bounds, p: Point) -> bool
    ensures { result ≡ in_box b p }
{
    b.lo.x <= p.x
        && p.x <= b.hi.x
        && b.lo.y <= p.y
        && p.y <= b.hi.y
        && b.lo.z <= p.z
        && p.z <= b.hi.z
}

// Whether the points are sized.
fn all_sized(points: Points) -> bool
    ensures { result ≡ every sized_point (points_in points.entry) }
{
    (0..points.count).all(|v| sized_point(point_at(points.floats, v)))
}

// Whether the parameters are in the box.
fn all_in_box(b: Bounds, parameters: Points) -> bool
    ensures { result ≡ every (in_box b) (points_in parameters.entry) }
{
    (0..parameters.count).all(|v| in_box(b, point_at(parameters.floats, v)))
}

// Whether the vertices' points and parameters are allowed: not number 12.
fn vertices_in(b: Bounds, parameters: Points, points: Points) -> bool
    ensures { result ≡ (every sized_point (points_in points.entry) && every (in_box b) (points_in parameters.entry)) }
{
    all_sized(points) && all_in_box(b, parameters)
}

// Whether every vertex number of an element is below n.
fn under_all(t: Tet, n: usize) -> bool
    ensures { result ≡ under n (vertices_of t) }
{
    t.vertices().iter().all(|v| (*v as usize) < n)
}

// Whether an element has four different vertices below n.
fn well_numbered(t: Tet, n: usize) -> bool
    ensures { result ≡ well_numbered n t }
{
    under_all(t, n) && four_different(t)
}

// Whether each of the first n elements has four different vertices below `vertices`: not number 13.
fn elements_in(elements: &[u32], n: usize, vertices: usize) -> bool
    ensures { result ≡ every (well_numbered vertices) (tets n elements.now) }
{
    (0..n).all(|e| well_numbered(tet_at(elements, e), vertices))
}

// The vertices of an element in rising order.
fn rising(t: Tet) -> [u32; 4]
    ensures { result ≡ vertex_row t }
{
    let mut row = t.vertices();
    row.sort_unstable();
    row
}

// The rows of the vertices of elements in rising order.
#[derive(Clone, Copy)]
struct TetRows<'a> {
    elements: &'a [u32],
}

impl<'a> Rows<4> for TetRows<'a> {
    ghost words = { λ r s e. vertex_row (tet_at r.elements.now e) };

    fn row(&self, _front: &[u32], e: usize) -> [u32; 4] {
        rising(tet_at(self.elements, e))
    }

    ghost wide = { λ r s e. sorted_row-wide (tet_at r.elements.now e) };
}

// Whether none of the first n rows of four words equals the next.
fn none_twice(s: &[u32], n: usize) -> bool
    requires { 4 * n ≤ length s.now }
    ensures { result ≡ none_twice (rows 4 n s.now) }
{
    (1..n).all(|i| !eq_rows(s, 4 * (i - 1), s, 4 * i, 4))
}

// Whether no two of n well numbered elements have the same four vertices: not number 14. The first 8 n words of the work hold their
// sorted vertices and the scratch of the sort, and are left 0.
fn all_different(elements: &[u32], n: usize, work: &mut [u32]) -> bool
    requires { (n ≤ 16384) × (8 * n ≤ length work.old) }
    ensures value { result ≡ none_twice (sort le_row (map vertex_row (tets n elements.now))) }
    ensures work_after { work.new ≡ zero_words (8 * n) ++ drop (8 * n) work.old }
{
    let m = 4 * n;
    fill_rows(work, 0, n, &TetRows { elements });
    sort_rows(work, n, 4);
    let different = none_twice(work, n);
    zero_all(&mut work[0..m]);
    different
}

// Whether the determinant of each of n elements is above 0: not number 15.
fn all_upright(points: Points, elements: &[u32], n: usize) -> bool
    ensures { result ≡ every (upright (points_in points.entry)) (tets n elements.now) }
{
    (0..n).all(|e| points.is_above(tet_at(elements, e)))
}

// Whether the counts, the lengths, the options and the fields are allowed.
fn check_settings(s: Settings, l: Lengths, fields: [Field; 8]) -> Result<(), Refusal>
    ensures { number_in result ≡ settings_number s.sizes l s.options s.count fields }
{
    if !room(s.sizes, l) {
        return Err(Refusal::Room);
    }
    if !settings_in(s.options, s.count, fields) {
        return Err(Refusal::Settings);
    }
    Ok(())
}

// Whether the vertices and the elements are allowed. The work is all zeros before and after.
fn check_mesh(
    b: Bounds,
    parameters: Points,
    points: Points,
    elements: &[u32],
    n: usize,
    work: &mut [u32],
) -> Result<(), Refusal>
    requires elements_bound { (n ≤ 16384) × (8 * n ≤ length work.old) }
    requires work_value { work.old ≡ zero_words (length work.old) }
    ensures value { number_in result ≡ mesh_number points.entry.count b (points_in parameters.entry) (points_in points.entry) (tets n elements.now) }
    ensures work_after { work.new ≡ zero_words (length work.old) }
{
    if !vertices_in(b, parameters, points) {
        return Err(Refusal::Vertex);
    }
    if !elements_in(elements, n, points.count) {
        return Err(Refusal::Corner);
    }
    if !all_different(elements, n, work) {
        return Err(Refusal::Twice);
    }
    if !all_upright(points, elements, n) {
        return Err(Refusal::Inverted);
    }
    Ok(())
}

// Whether none of the numbers 10 to 15 applies, else the first of them. `masks` and `surface` are the lengths of those slices; the work is all
// zeros afterwards; of the floats only their length counts.
fn check_numbers(
    s: Settings,
    fields: [Field; 8],
    parameters: &[f64],
    points: &[f64],
    masks: usize,
    elements: &[u32],
    surface: usize,
    work: &mut [u32],
    floats: &[f64],
) -> Result<(), Refusal>
    ensures value { number_in result ≡ intake_numbers (given_of s fields parameters.now points.now masks elements.now surface work.old floats.now) }
    ensures work_after { work.new ≡ zero_words (length work.old) }
{
    zero_all(work);
    let l = Lengths {
        parameters: parameters.len(),
        points: points.len(),
        masks,
        elements: elements.len(),
        surface,
        words: work.len(),
        floats: floats.len(),
    };
    check_settings(s, l, fields)?;
    let count = s.sizes.vertices;
    check_mesh(
        s.options.bounds,
        Points {
            floats: parameters,
            count,
        },
        Points {
            floats: points,
            count,
        },
        elements,
        s.sizes.elements,
        work,
    )
}

// Whether no key of n elements is bad, else the refusal of the first bad one. The first 36 n words of the work are the area of the boundary; the
// work is all zeros before and after.
fn check_boundary(elements: &[u32], n: usize, work: &mut [u32]) -> Result<(), Refusal>
    requires n_bound { (n ≤ 16384) × (4 * n ≤ length elements.now) × (36 * n ≤ length work.old) }
    requires work_value { work.old ≡ zero_words (length work.old) }
    ensures value { number_in result ≡ boundary_number (tets n elements.now) }
    ensures work_after { work.new ≡ zero_words (length work.old) }
{
    let m = 4 * n;
    let e = 36 * n;
    copy_over(work, elements, m);
    boundary_in(&mut work[0..e], n)?;
    zero_all(&mut work[0..e]);
    Ok(())
}

// Intake: the first row of the table, 10 to 17, whose condition applies refuses. `masks` and `surface` are the lengths of those slices. Both work
// slices may hold anything before, and are all zeros afterwards.
pub fn intake(
    s: Settings,
    fields: [Field; 8],
    parameters: &[f64],
    points: &[f64],
    masks: usize,
    elements: &[u32],
    surface: usize,
    work: &mut [u32],
    floats: &mut [f64],
) -> Result<(), Refusal>
    ensures value { number_in result ≡ intake (given_of s fields parameters.now points.now masks elements.now surface work.old floats.old) }
    ensures work_after { work.new ≡ zero_words (length work.old) }
    ensures floats_after { floats.new ≡ zero_floats (length floats.old) }
{
    let numbers = check_numbers(
        s, fields, parameters, points, masks, elements, surface, work, floats,
    );
    zero_all(floats);
    numbers?;
    check_boundary(elements, s.sizes.elements, work)
}
