// The boundary of a list of elements: the faces are listed with their keys, sorted, and the single ones gathered run by run.
//
// An area for n elements has 36 n words: the elements, 4 n words; the face rows, 4 n rows of 4 words; as many words of scratch. A face
// row is a face's key and its number, which is 4 e + k for the face k of the element e. The single faces are gathered as rows of 3
// words over the face rows that are read already.
//
// Kept by hand, in all functions here that take words: rows at offsets of one slice, since memory is lent and fixed (no heap), and the
// number of elements or rows beside it. No plainer with a struct of both: `gather` alone would take it.
ghost use Rattle.std.specs.Prelude.{◌≡◌, ◌+◌, ◌*◌, ◌≤◌, length, drop};
ghost use Rattle.mesh.specs.inside.Rows.{rows};
ghost use Rattle.mesh.specs.Surface.{outcome_of, call_fits, Call, boundary_call};
ghost use Rattle.mesh.specs.inside.Surface.{Filled, boundary_in, kind_at, run_number, FaceArea, Gathered};

use crate::element::face_parity;
use crate::faces::{face_at, sorted_faces};
use crate::refusal::Refusal;
use crate::rows::{eq_rows, put_row, sort_rows};
use crate::vertex::fits;
use crate::words::{copy_over, zero_all};

// Whether n is at most 16,384 and n elements, 4 n triples and an area for n elements fit into as many words.
// Kept by hand: no plainer with `fits`, whose limit is another.
#[tactic(auto, unfolding(crate::specs::Surface::call_fits))]
fn call_fits(n: usize, elements: usize, surface: usize, work: usize) -> bool
    ensures { result ≡ call_fits n elements surface work }
{
    n <= 16384 && 4 * n <= elements && 12 * n <= surface && 36 * n <= work
}

// A run of equal keys: a single face, two of opposite parity, two of the same parity, three or more.
#[derive(Clone, Copy, PartialEq, Eq, Debug)]
enum Run {
    Single,
    Opposed,
    SameParity,
    Crowded,
}

// The run that begins at p, where `left` rows are left.
fn run_kind(area: &[u32], p: usize, left: usize) -> Run
    requires { p + 4 * left ≤ length area.now }
    ensures { run_number result ≡ kind_at area.now (rows 4 left (drop p area.now)) }
{
    if left < 2 || !eq_rows(area, p, area, p + 4, 3) {
        return Run::Single;
    }
    if 2 < left && eq_rows(area, p, area, p + 8, 3) {
        return Run::Crowded;
    }
    let f = face_at(area, area[p + 3]);
    let g = face_at(area, area[p + 7]);
    if face_parity(f) == face_parity(g) {
        Run::SameParity
    } else {
        Run::Opposed
    }
}

// Gathers the single faces to the front of the rows, and gives how many, or the refusal of the first bad run.
fn gather(area: &mut [u32], n: usize) -> Result<usize, Refusal>
    requires { FaceArea n area.old }
    ensures { Gathered n area.old area.new (outcome_of result) }
{
    // Kept by hand: a turn writes over rows that are read already, so no iterator can hold them, and a step takes a run of one row or two.
    let mut p = 4 * n;
    let mut left = p;
    let mut t = p;
    let mut count: usize = 0;
    while 0 < left {
        match run_kind(area, p, left) {
            Run::Single => {
                let f = face_at(area, area[p + 3]);
                put_row(area, t, &f.corners());
                t += 3;
                count += 1;
                p += 4;
                left -= 1;
            }
            Run::Opposed => {
                p += 8;
                left -= 2;
            }
            Run::SameParity => return Err(Refusal::Parity),
            Run::Crowded => return Err(Refusal::Crowded),
        }
    }
    Ok(count)
}

// The boundary of the n elements at the front of the area. The sorted triples stand behind the elements, and behind them all is 0.
// Refused where the area is too small or n above 65,536, else by the first bad key; then the whole area is 0.
pub fn boundary_in(area: &mut [u32], n: usize) -> Result<usize, Refusal>
    ensures { ◌≡◌ {A = Filled} (record { answer = outcome_of result; area = area.new }) (boundary_in n area.old) }
{
    if !fits(n, 36, area.len()) {
        zero_all(area);
        return Err(Refusal::Room);
    }
    let m = 4 * n;
    sorted_faces(area, n);
    match gather(area, n) {
        Ok(c) => {
            sort_rows(&mut area[m..], c, 3);
            let end = m + 3 * c;
            zero_all(&mut area[end..]);
            Ok(c)
        }
        Err(refusal) => {
            zero_all(area);
            Err(refusal)
        }
    }
}

// The boundary of n elements. Its sorted triples are written to the front of `surface`; on a refusal it stays as it was. Refused where
// n is above 16,384 or a slice is too short, else by the first bad key. The work is all zeros afterwards.
pub fn boundary(
    elements: &[u32],
    n: usize,
    surface: &mut [u32],
    work: &mut [u32],
) -> Result<usize, Refusal>
    ensures { ◌≡◌ {A = Call} (record { answer = outcome_of result; surface = surface.new; work = work.new })
        (boundary_call n elements.now surface.old work.old) }
{
    if !call_fits(n, elements.len(), surface.len(), work.len()) {
        zero_all(work);
        return Err(Refusal::Room);
    }
    let m = 4 * n;
    copy_over(work, elements, m);
    let c = boundary_in(work, n)?;
    copy_over(surface, &work[m..], 3 * c);
    zero_all(work);
    Ok(c)
}
