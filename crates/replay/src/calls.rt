// Stored calls of data/passes.txt, whose head states the form: each list of calls up to the first of a pass that is not replayed. After every
// call the answer, every place of the five buffers and the zeros of both work slices are compared.
ghost use Rattle.std.specs.Prelude.{◌≡◌, ◌+◌, ◌<◌, IfOk};

use crate::call::{Buffers, Call, Pass, read_answer};
use crate::tally::Tally;
use crate::words::{Lines, Words};
use mesh::intake::Sizes;
use std::alloc::{AllocError, Global};

// Runs the call that follows. Whether it gives the stored answer and leaves what is stored; with the sizes that the stored answer says.
fn call_agrees(
    alloc: Global,
    words: &mut Words,
    pass: Pass,
    sizes: Sizes,
    mesh: &mut Buffers,
) -> Result<(bool, Sizes), AllocError> {
    let call = Call::read(alloc, pass, words)?;
    let mut expected = mesh.clone()?;
    let stored = read_answer(alloc, words, &mut expected)?;
    let (given, cleared) = call.run(alloc, sizes, mesh)?;
    let agrees = cleared && given == stored && mesh.same(&expected);
    Ok((agrees, stored.map_or(sizes, |done| done.sizes())))
}

// Replays the n calls that follow, up to the first of a pass that is not replayed.
fn replay_calls(
    alloc: Global,
    words: &mut Words,
    n: u64,
    start: Sizes,
    mesh: &mut Buffers,
) -> Result<Tally, AllocError>
    ensures { IfOk result (λ t. t.agree + t.differ + t.left ≡ n) }
{
    let mut sizes = start;
    let mut agree = 0u64;
    for i in 0..n {
        words.skip();
        let Ok(pass) = Pass::try_from(words.read::<u64>()) else {
            return Ok(Tally {
                agree,
                differ: i - agree,
                left: n - i,
            });
        };
        let (agrees, after) = call_agrees(alloc, words, pass, sizes, mesh)?;
        agree += u64::from(agrees);
        sizes = after;
    }
    Ok(Tally {
        agree,
        differ: n - agree,
        left: 0,
    })
}

// Replays the list of calls whose words these are, from the word `case` on.
fn replay_case(alloc: Global, words: &mut Words) -> Result<Tally, AllocError>
    ensures { IfOk result (λ t. (t.agree < 65536) × (t.differ < 65536) × (t.left < 65536)) }
{
    words.skip();
    words.skip();
    words.skip();
    let sizes = words.read();
    let mut mesh = Buffers::read(alloc, words)?;
    words.skip();
    let n = words.count() as u64;
    replay_calls(alloc, words, n, sizes, &mut mesh)
}

// Whether a text begins with the word `case`: no other word of the file has c and s in these places.
pub(crate) fn is_case(text: &[u8]) -> bool {
    matches!(text, [b'c', _, b's', ..])
}

// Replays every list of calls of a text, and adds what they give to a tally. A list begins at the beginning of a line.
pub(crate) fn replay(alloc: Global, text: &[u8], before: Tally) -> Result<Tally, AllocError> {
    let mut tally = before;
    for list in Lines::of(text) {
        if is_case(list) {
            tally.add(replay_case(alloc, &mut Words::of(list))?);
        }
    }
    Ok(tally)
}
