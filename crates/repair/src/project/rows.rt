// The rows of the active fields at a point.
ghost use Rattle.std.specs.Prelude.{◌≤◌, length};

use geometry::point::Point;

// The value and the gradient of a field at a point, both divided by the gradient's magnitude.
#[derive(Clone, Copy)]
pub(crate) struct Row {
    pub value: f64,
    pub gradient: Point,
}

// At most eight rows.
#[derive(Clone, Copy)]
pub(crate) struct Rows<'a> {
    pub list: &'a [Row],
    pub ghost few: { length list.now ≤ 8 },
}
