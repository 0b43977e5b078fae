// A line of data/units.txt about the projection: the box, the number of fields and their words, the number of active ones and which,
// origin and candidate, = and 0, or 1 and the point.
ghost use Rattle.std.specs.Prelude.{◌≤◌};

use crate::words::{Same, Words};
use geometry::bounds::Bounds;
use geometry::field::Field;
use geometry::point::Point;
use repair::project::project_candidate;

// The most fields, and the highest number of one.
const FIELDS: usize = 8;

// A count or a number of the line, and 8 where it is more.
fn at_most_8(words: &mut Words) -> usize
    ensures { result ≤ 8 }
{
    words.count_to(FIELDS).unwrap_or(FIELDS)
}

// What a number may name: the fields that follow, and also what stands behind them, read as fields.
fn numbered(words: &Words) -> [Field; 9] {
    let mut ahead = *words;
    let mut fields = [Field::Level(0.0); 9];
    for field in fields.iter_mut() {
        *field = ahead.read();
    }
    fields
}

// The active ones of the fields, whose numbers follow, at the front of eight.
fn active(words: &mut Words, fields: [Field; 9], count: usize) -> [Field; 8] {
    let mut all = [Field::Level(0.0); 8];
    for place in all.iter_mut().take(count) {
        *place = fields[at_most_8(words)];
    }
    all
}

// Whether the projection gives the line's answer.
pub(crate) fn project_agrees(words: &mut Words) -> bool {
    let bounds: Bounds = words.read();
    let n = at_most_8(words);
    let fields = numbered(words);
    for _ in 0..n {
        let _passed_over: Field = words.read();
    }
    let count = at_most_8(words);
    let active = active(words, fields, count);
    let origin: Point = words.read();
    let candidate: Point = words.read();
    let found = project_candidate(bounds, origin, active, count, candidate);
    let number: u64 = words.answer();
    match found {
        Some(point) => number == 1 && point.same(&words.read()),
        None => number == 0,
    }
}
