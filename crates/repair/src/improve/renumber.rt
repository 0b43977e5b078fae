// The end of `improve`: vertices numbered by first use, the boundary and the nonmanifold test, and the new mesh in the buffers.
//
// An area for k elements and nv vertices, at least 112 k + 3 nv words:
//
//   elements  4 k         in the end with their new numbers
//   surface   108 k + nv  the triples, with room for `boundary_in` and `nonmanifold_in`. Before that the first nv words are marks, one a
//                         vertex: 0 while it is not met, else its new number + 1
//   used      nv          the old number of each new vertex
//   masks     nv          the mask of each new vertex
//
// Kept by hand: areas at offsets of one lent slice, with k, nv and n beside it (no heap). `Unmet`, `EndArea` and `MeshFits` name what is asked.
ghost use Rattle.std.specs.Prelude.{◌≡◌, true, ◌++◌, ◌+◌, ◌-◌, ◌*◌, ◌≤◌, ltb, length, take, drop};
ghost use Rattle.mesh.specs.Tests.{every};
ghost use Rattle.mesh.specs.Element.{tets, all_vertices};
ghost use Rattle.mesh.specs.inside.Manifold.{KeptBelow};
ghost use Rattle.mesh.specs.Surface.{Surface, outcome_of};
ghost use Rattle.repair.specs.Answer.{answer_of};
ghost use Rattle.repair.specs.Step.{Answer, State, sizes_after, over};
ghost use Rattle.repair.specs.inside.improve.Renumber.{improve_end, EndArea, EndFits, used_at, numbered_at, met_at, Unmet, Numbered, Renumbered, tested_outcome, tested_part, Ended, values_from, values_of, MeshFits, moved_in, state_in, SameBuffers};

use crate::answer::Made;
use crate::improve::buffers::Buffers;
use mesh::boundary::boundary_in;
use mesh::intake::Sizes;
use mesh::manifold::nonmanifold_in;
use mesh::refusal::Refusal;
use mesh::words::{Zero, at, copy_part, put, zero_all};

// How many words an element takes before `used`: its own, and room for its faces.
const END_WORDS: usize = 112;

// Writes the new number of the vertex at p, the next one where it is not met yet, and gives how many are met then.
fn number_word(area: &mut [u32], p: usize, marks: usize, used: usize, count: u32) -> u32
    requires { (marks ≤ 65536) × (used ≤ 2000000) × (count ≤ 65536) }
    ensures { (result ≡ met_at marks count p area.old) × (area.new ≡ numbered_at marks used count p area.old) }
{
    let v = at(area, p);
    let q = marks + v as usize;
    let mark = at(area, q);
    if mark == 0 {
        put(area, q, count + 1);
        put(area, used + count as usize, v);
        put(area, p, count);
        count + 1
    } else {
        put(area, p, mark - 1);
        count
    }
}

// Writes the new numbers of the vertices of the k elements at the front, and gives how many vertices they are.
fn number_words(area: &mut [u32], k: usize, nv: usize) -> u32
    requires { Unmet (4 * k) nv (used_at k nv) area.old }
    ensures { Numbered (4 * k) (used_at k nv) area.old area.new result }
{
    let m = 4 * k;
    let used = END_WORDS * k + nv;
    let mut count: u32 = 0;
    for p in 0..m {
        count = number_word(area, p, m, used, count);
    }
    count
}

// Numbers the vertices of the k elements at the front by first use, lists their old numbers, and gives how many they are.
fn renumber(area: &mut [u32], k: usize, nv: usize) -> usize
    requires { EndArea k nv area.old }
    ensures { Renumbered k nv area.old area.new result }
{
    let m = 4 * k;
    let e = m + nv;
    zero_all(&mut area[m..e]);
    number_words(area, k, nv) as usize
}

// The surface of the c triples from m on, refused where it has a nonmanifold vertex.
fn test_surface(area: &mut [u32], m: usize, e: usize, c: usize) -> Result<usize, Refusal>
    requires { (m ≤ e) × (e ≤ length area.old) }
    ensures { (outcome_of result ≡ tested_outcome (Surface c) (take (e - m) (drop m area.old))) ×
        (area.new ≡ take m area.old ++ (tested_part (Surface c) (take (e - m) (drop m area.old)) ++ drop (e - m) (drop m area.old))) }
{
    if nonmanifold_in(&mut area[m..e], c) {
        Err(Refusal::Nonmanifold)
    } else {
        Ok(c)
    }
}

// The boundary of the k elements at the front, its triples behind them, refused by the first bad key or by a nonmanifold vertex.
fn end_surface(area: &mut [u32], k: usize, nv: usize) -> Result<usize, Refusal>
    requires { (k ≤ 16384) × (nv ≤ 4096) × (used_at k nv ≤ length area.old) × (every (λ v. ltb v nv) (all_vertices (tets k area.old)) ≡ true) }
    ensures { Ended k nv area.old area.new (outcome_of result) }
{
    let m = 4 * k;
    let e = END_WORDS * k + nv;
    let c = boundary_in(&mut area[0..e], k)?;
    test_surface(area, m, e, c)
}

// Writes the W values from k on at i, zero where there is none.
// Kept by hand: `W ≤ 3` here and in the two functions below. A trait of the two widths is no plainer.
fn put_values<T: Zero, const W: usize>(list: &mut [T], i: usize, values: &[T], k: usize)
    requires { (W ≤ 3) × (k ≤ 12884901885) × (i + W ≤ length list.old) }
    ensures { take (i + W) list.new ≡ take i list.old ++ values_from T.zero values.now k W }
{
    for j in 0..W {
        put(list, i + j, at(values, k + j));
    }
}

// Lists the W values of each of these vertices.
fn list_values<T: Zero, const W: usize>(list: &mut [T], values: &[T], vertices: &[u32])
    requires { (W ≤ 3) × (W * length vertices.now ≤ length list.old) }
    ensures { take (W * length vertices.now) list.new ≡ values_of T.zero values.now W vertices.now }
{
    for (i, v) in vertices.iter().enumerate() {
        put_values::<T, W>(list, W * i, values, W * (*v as usize));
    }
}

// Puts the W values of each of these vertices over the first values.
fn move_values<T: Zero, const W: usize>(values: &mut [T], list: &mut [T], vertices: &[u32])
    requires { (W ≤ 3) × (W * length vertices.now ≤ length list.old) × (W * length vertices.now ≤ length values.old) }
    ensures { values.new ≡ over (values_of T.zero values.old W vertices.now) values.old }
{
    list_values::<T, W>(list, values, vertices);
    copy_part(list, 0, values, 0, W * vertices.len());
}

// Puts the mesh of these sizes that stands in the area over the first of the buffers.
fn commit(sizes: Sizes, nv: usize, mesh: &mut Buffers, area: &mut [u32], floats: &mut [f64])
    requires { MeshFits sizes nv mesh.old (length area.old) (length floats.old) }
    ensures same { SameBuffers mesh.old mesh.new }
    ensures moved { state_in sizes mesh.new ≡ moved_in sizes nv area.old (state_in sizes mesh.old) }
{
    let n = sizes.vertices;
    let k = sizes.elements;
    let m = 4 * k;
    let w = 3 * sizes.triples;
    let used = END_WORDS * k + nv;
    let (front, list) = area.split_at_mut(used + nv);
    let vertices = &front[used..used + n];
    move_values::<f64, 3>(mesh.parameters, floats, vertices);
    move_values::<f64, 3>(mesh.points, floats, vertices);
    move_values::<u32, 1>(mesh.masks, list, vertices);
    copy_part(front, 0, mesh.elements, 0, m);
    copy_part(front, m, mesh.surface, 0, w);
}

// The end of `improve` for the k elements at the front of the area: done with the count and the new mesh in the buffers, or refused as
// crowded, by parity or as nonmanifold, and the buffers as they were.
pub(crate) fn finish_improve(
    sizes: Sizes,
    count: usize,
    k: usize,
    mesh: &mut Buffers,
    area: &mut [u32],
    floats: &mut [f64],
) -> Result<Made, Refusal>
    requires { EndArea k sizes.vertices area.old × EndFits sizes k mesh.old (length floats.old) }
    ensures same { SameBuffers mesh.old mesh.new }
    ensures ended { ◌≡◌ {A = Answer × State} (answer_of result, state_in (sizes_after (answer_of result) sizes) mesh.new) (improve_end count (tets k area.old) (state_in sizes mesh.old)) }
{
    let nv = sizes.vertices;
    let n = renumber(area, k, nv);
    let c = end_surface(area, k, nv)?;
    let sizes = Sizes {
        vertices: n,
        elements: k,
        triples: c,
    };
    commit(sizes, nv, mesh, area, floats);
    Ok(Made { count, sizes })
}
