// One line of data/units.txt: the function that it names, on its inputs, against the Rust's answer.
use crate::link::link_agrees;
use crate::project::project_agrees;
use crate::surface::{boundary_agrees, nonmanifold_agrees};
use crate::words::{Pattern, Same, Words};
use geometry::bounds::{Bounds, Options, Span, cap, spacing};
use geometry::field::{Field, gradient, value};
use geometry::point::{Point, determinant};
use geometry::root::root;
use geometry::score::{score, squared_edges};
use std::alloc::{AllocError, Global};
use std::fmt;

// The functions that are replayed.
#[derive(Clone, Copy, Debug, PartialEq, Eq)]
pub(crate) enum Unit {
    Root,
    Norm,
    Determinant,
    Edges,
    Score,
    Spacing,
    Rank,
    Cap,
    Value,
    Gradient,
    Boundary,
    Nonmanifold,
    Link,
    Project,
}

impl fmt::Display for Unit {
    fn fmt<W: fmt::Write>(&self, f: &mut fmt::Formatter<W>) -> fmt::Result {
        f.write_str(self.name())
    }
}

impl Unit {
    pub const ALL: [Unit; 14] = [
        Unit::Root,
        Unit::Norm,
        Unit::Determinant,
        Unit::Edges,
        Unit::Score,
        Unit::Spacing,
        Unit::Rank,
        Unit::Cap,
        Unit::Value,
        Unit::Gradient,
        Unit::Boundary,
        Unit::Nonmanifold,
        Unit::Link,
        Unit::Project,
    ];

    fn name(self) -> &'static str {
        match self {
            Unit::Root => "root",
            Unit::Norm => "norm",
            Unit::Determinant => "determinant",
            Unit::Edges => "edges",
            Unit::Score => "score",
            Unit::Spacing => "spacing",
            Unit::Rank => "rank",
            Unit::Cap => "cap",
            Unit::Value => "value",
            Unit::Gradient => "gradient",
            Unit::Boundary => "boundary",
            Unit::Nonmanifold => "nonmanifold",
            Unit::Link => "link",
            Unit::Project => "project",
        }
    }

    // The function that a text's first line names, by the text's first and third letters.
    pub fn named(text: &[u8]) -> Option<Unit> {
        Some(match text {
            [b'r', _, b'o', ..] => Unit::Root,
            [b'r', ..] => Unit::Rank,
            [b'n', _, b'r', ..] => Unit::Norm,
            [b'n', ..] => Unit::Nonmanifold,
            [b's', _, b'o', ..] => Unit::Score,
            [b's', ..] => Unit::Spacing,
            [b'd', ..] => Unit::Determinant,
            [b'e', ..] => Unit::Edges,
            [b'c', ..] => Unit::Cap,
            [b'v', ..] => Unit::Value,
            [b'g', ..] => Unit::Gradient,
            [b'b', ..] => Unit::Boundary,
            [b'l', ..] => Unit::Link,
            [b'p', ..] => Unit::Project,
            _ => return None,
        })
    }

    // Whether the function gives the answer of the line's words behind its name; nothing where the line is not replayed.
    pub fn agrees(self, alloc: Global, words: &mut Words) -> Result<Option<bool>, AllocError> {
        Ok(Some(match self {
            Unit::Root => root(words.read()).same(&words.answer()),
            Unit::Norm => words.read::<Point>().norm().same(&words.answer()),
            Unit::Determinant => element_agrees(words, determinant),
            Unit::Edges => element_agrees(words, squared_edges),
            Unit::Score => element_agrees(words, score),
            Unit::Spacing => spacing_agrees(words),
            Unit::Rank => rank_agrees(words),
            Unit::Cap => {
                let bounds: Bounds = words.read();
                Pattern(cap(words.read(), bounds)) == words.answer()
            }
            Unit::Value => {
                let field: Field = words.read();
                value(field, words.read()).same(&words.answer())
            }
            Unit::Gradient => {
                let field: Field = words.read();
                gradient(field, words.read()).same(&words.answer())
            }
            Unit::Boundary => boundary_agrees(alloc, words)?,
            Unit::Nonmanifold => nonmanifold_agrees(alloc, words)?,
            Unit::Link => return link_agrees(alloc, words),
            Unit::Project => project_agrees(words),
        }))
    }
}

// A function of an element's four points.
fn element_agrees<F: Fn(Point, Point, Point, Point) -> f64>(words: &mut Words, f: F) -> bool
    requires { F.IsAlwaysCallable f }
{
    let x = f(words.read(), words.read(), words.read(), words.read());
    x.same(&words.answer())
}

fn spacing_agrees(words: &mut Words) -> bool {
    let h = spacing(Options {
        bounds: words.read(),
        cells: words.read(),
        periodic: 0,
        passes: 0,
    });
    h.same(&words.answer())
}

fn rank_agrees(words: &mut Words) -> bool {
    let value = words.read();
    let span: Span = words.read();
    let periodic = words.read();
    let rank = span.rank_value(span.canonical_value(value, periodic));
    rank == words.answer()
}
