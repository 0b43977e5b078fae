// Arrays of numbers as a box, fields, and what stands beside a mesh.
// Kept by hand: the C interface passes plain arrays. An impl of `From` for a pair of arrays belongs to geometry or mesh, whose types these are, by
// the orphan rule, and they don't know the arrays of C.
ghost use Rattle.std.specs.Prelude.{◌≡◌, ◌<◌};
ghost use Rattle.halmafir.specs.Arrays.{bounds_of, field_of, field_at, fields_of, options_of, sizes_of, settings_of};

use geometry::bounds::{Bounds, Cells, Options};
use geometry::field::{Field, Kind};
use geometry::point::Point;
use mesh::intake::{Settings, Sizes};
use std::array::from_fn;

// lo and hi per direction: x, y, z.
pub fn bounds_of(b: &[f64; 6]) -> Bounds
    ensures { result ≡ bounds_of b.now }
{
    Bounds {
        lo: Point {
            x: b[0],
            y: b[2],
            z: b[4],
        },
        hi: Point {
            x: b[1],
            y: b[3],
            z: b[5],
        },
    }
}

// A kind and four numbers. An unknown kind is a level at NaN, which intake refuses with the same number.
pub fn field_of(kind: u32, f: &[f64; 4]) -> Field
    ensures { result ≡ field_of kind f.now }
{
    let p = Point {
        x: f[0],
        y: f[1],
        z: f[2],
    };
    match Kind::try_from(kind) {
        Ok(Kind::Level) => Field::Level(f[0]),
        Ok(Kind::Plane) => Field::Plane(p, f[3]),
        Ok(Kind::Ball) => Field::Ball(p, f[3]),
        Err(_) => Field::Level(f64::NAN),
    }
}

// Settings are three cells, periodic bits, passes, how many fields there are, and the kinds of eight; numbers are a box, and four for each of
// eight fields. This is the field j.
fn field_at(settings: &[u32; 14], numbers: &[f64; 38], j: usize) -> Field
    requires { j < 8 }
    ensures { result ≡ field_at settings.now numbers.now j }
{
    let f = [
        numbers[6 + 4 * j],
        numbers[7 + 4 * j],
        numbers[8 + 4 * j],
        numbers[9 + 4 * j],
    ];
    field_of(settings[6 + j], &f)
}

// Eight fields, a kind and four numbers each.
pub fn fields_of(settings: &[u32; 14], numbers: &[f64; 38]) -> [Field; 8]
    ensures { result ≡ fields_of settings.now numbers.now }
{
    from_fn(|j| field_at(settings, numbers, j))
}

// The box, cells, periodic bits and passes.
pub fn options_of(settings: &[u32; 14], numbers: &[f64; 38]) -> Options
    ensures { result ≡ options_of settings.now numbers.now }
{
    let sides = [
        numbers[0], numbers[1], numbers[2], numbers[3], numbers[4], numbers[5],
    ];
    let cells = Cells {
        x: settings[0],
        y: settings[1],
        z: settings[2],
    };
    Options {
        bounds: bounds_of(&sides),
        cells,
        periodic: settings[3],
        passes: settings[4],
    }
}

// Vertices, elements, triples.
fn sizes_of(n: &[usize; 3]) -> Sizes
    ensures { result ≡ sizes_of n.now }
{
    Sizes {
        vertices: n[0],
        elements: n[1],
        triples: n[2],
    }
}

// What stands beside the mesh in a call: its sizes, the options, and how many of the fields count.
pub fn settings_of(sizes: &[usize; 3], settings: &[u32; 14], numbers: &[f64; 38]) -> Settings
    ensures { result ≡ settings_of sizes.now settings.now numbers.now }
{
    Settings {
        sizes: sizes_of(sizes),
        options: options_of(settings, numbers),
        count: settings[5],
    }
}
