// A file of lists of calls, read in pieces: a list that a piece's end may cut begins the next piece.
ghost use Rattle.std.specs.Prelude.{◌≤◌, IfOk, length};

use crate::calls::{is_case, replay};
use crate::tally::Tally;
use crate::words::Lines;
use input::read_full;
use std::alloc::Global;
use std::io;
use std::io::Read;

// How many bytes a piece has, and how many pieces are read.
const PIECE: usize = 65536;

const PIECES: usize = 16;

// What the pieces so far give, and how many bytes at the buffer's front are not replayed yet.
#[derive(Clone, Copy, Debug, Default, PartialEq, Eq)]
struct Piece {
    tally: Tally,
    kept: usize,
}

// Where the last list of a text begins, and 0 where there is none.
fn last_case(text: &[u8]) -> usize
    ensures { result ≤ length text.now }
{
    let last = Lines::of(text).filter(|list| is_case(list)).last();
    text.len()
        .saturating_sub(last.map_or(text.len(), |list| list.len()))
}

// How much of a buffer is replayed with n bytes read: all where the file has ended, else what stands before the last list.
fn whole_lists(buffer: &[u8], n: usize) -> usize
    requires { n ≤ length buffer.now }
    ensures { result ≤ n }
{
    if n < buffer.len() {
        n
    } else {
        last_case(buffer)
    }
}

// Reads the next piece behind the kept bytes, replays its whole lists and keeps the rest.
fn next_piece(
    alloc: Global,
    file: &mut impl Read,
    buffer: &mut [u8],
    piece: Piece,
) -> io::Result<Piece>
    requires { piece.kept ≤ length buffer.old }
    ensures { IfOk result (λ next. next.kept ≤ length buffer.old) }
{
    let n = piece.kept + read_full(file, &mut buffer[piece.kept..])?;
    let done = whole_lists(buffer, n);
    let tally = replay(alloc, &buffer[..done], piece.tally)?;
    buffer.copy_within(done..n, 0);
    Ok(Piece {
        tally,
        kept: n - done,
    })
}

// Replays the lists of an open file.
pub(crate) fn replay_file(alloc: Global, file: &mut impl Read) -> io::Result<Tally> {
    let mut buffer = [0u8; PIECE];
    let mut piece = Piece::default();
    for _ in 0..PIECES {
        piece = next_piece(alloc, file, &mut buffer, piece)?;
    }
    Ok(piece.tally)
}
