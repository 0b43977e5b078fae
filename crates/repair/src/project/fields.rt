// The fields that a point is projected onto.
ghost use Rattle.std.specs.Prelude.{◌≤◌, ◌≡◌, length, take};

use geometry::field::Field;

// At most eight fields.
// Kept by hand, with `Rows`: one generic struct of both was tried and is no plainer. With its ghost field it can't derive Clone, and an impl of
// Clone is longer than the second struct.
#[derive(Clone, Copy)]
pub(crate) struct Fields<'a> {
    pub list: &'a [Field],
    pub ghost few: { length list.now ≤ 8 },
}

impl<'a> Fields<'a> {
    // The first `count` of eight fields, all of them where the count is over 8.
    pub(crate) fn first(fields: &'a [Field; 8], count: usize) -> Fields<'a>
        ensures { result.list.now ≡ take count fields.now }
    {
        Fields {
            list: &fields[..count.min(8)],
        }
    }
}
