// The header's record: the box and what stands beside it, and the fields.
ghost use Rattle.std.specs.Prelude.{◌≡◌, ◌<◌};
ghost use Rattle.geometry.specs.Field.{number_of as kind_number};
ghost use Rattle.report.specs.Format.{field_places};
ghost use Rattle.report.specs.inside.Error.{number_of};
ghost use Rattle.report.specs.Block.{header_options, field_from, field_at, header_fields, kinds_number, reading_number};

use crate::block::check_file;
use crate::bytes::{float, point, word};
use crate::error::FileError;
use crate::format::{
    BOUNDS_PLACE, CELLS_PLACE, COUNT_PLACE, FIELD_PLACES, FIELD_SIZE, FIRST_FIELD, PASSES_PLACE,
    PERIODIC_PLACE,
};
use geometry::bounds::{Bounds, Cells, Options};
use geometry::field::{Field, Kind};
use geometry::point::Point;
use std::array::from_fn;

// Lo and hi per direction: x lo, x hi, y, z.
fn bounds(s: &[u8]) -> Bounds
    ensures { result ≡ (header_options s.now).bounds }
{
    let lo = Point {
        x: float(s, BOUNDS_PLACE),
        y: float(s, BOUNDS_PLACE + 4),
        z: float(s, BOUNDS_PLACE + 8),
    };
    let hi = Point {
        x: float(s, BOUNDS_PLACE + 2),
        y: float(s, BOUNDS_PLACE + 6),
        z: float(s, BOUNDS_PLACE + 10),
    };
    Bounds { lo, hi }
}

// The box, cells, periodic bits and passes.
pub fn options(s: &[u8]) -> Options
    ensures { result ≡ header_options s.now }
{
    let cells = Cells {
        x: word(s, CELLS_PLACE),
        y: word(s, CELLS_PLACE + 1),
        z: word(s, CELLS_PLACE + 2),
    };
    Options {
        bounds: bounds(s),
        cells,
        periodic: word(s, PERIODIC_PLACE),
        passes: word(s, PASSES_PLACE),
    }
}

// The field of a kind, its numbers from the word i on.
fn field_from(s: &[u8], kind: Kind, i: usize) -> Field
    requires { i < 1000 }
    ensures { result ≡ field_from s.now (kind_number kind) i }
{
    match kind {
        Kind::Level => Field::Level(float(s, i)),
        Kind::Plane => Field::Plane(point(s, i), float(s, i + 6)),
        Kind::Ball => Field::Ball(point(s, i), float(s, i + 6)),
    }
}

// The field j, and a level 0 for an unused place. A file with an unknown kind is not read; here it counts as a ball's.
fn field_at(s: &[u8], j: usize) -> Field
    requires { j < field_places }
    ensures { result ≡ field_at s.now j }
{
    if j < word(s, COUNT_PLACE) as usize {
        let p = FIRST_FIELD + FIELD_SIZE * j;
        let kind = Kind::try_from(word(s, p)).unwrap_or(Kind::Ball);
        return field_from(s, kind, p + 1);
    }
    Field::Level(0.0)
}

// The fields in their 8 places.
pub fn fields(s: &[u8]) -> [Field; 8]
    ensures { result ≡ header_fields s.now }
{
    from_fn(|j| field_at(s, j))
}

// Tests that there are no more fields than places, and that each kind is known.
fn check_kinds(s: &[u8]) -> Result<(), FileError>
    ensures { number_of result ≡ kinds_number s.now }
{
    let n = word(s, COUNT_PLACE) as usize;
    if FIELD_PLACES < n {
        return Err(FileError::UnknownField);
    }
    for j in 0..n {
        if Kind::try_from(word(s, FIRST_FIELD + FIELD_SIZE * j)).is_err() {
            return Err(FileError::UnknownField);
        }
    }
    Ok(())
}

// Tests whether a file is read.
pub(crate) fn check(s: &[u8]) -> Result<(), FileError>
    ensures { number_of result ≡ reading_number s.now }
{
    check_file(s)?;
    check_kinds(s)
}
