// The regions of `smooth`: which fields are active at a vertex, and whether a point is outside every region.
ghost use Rattle.std.specs.Prelude.{◌≡◌, ◌≤◌, length, take};
ghost use Rattle.repair.specs.Step.{regions_in};
ghost use Rattle.repair.specs.Smooth.{chosen, outside, outside_all};

use crate::project::fields::Fields;
use geometry::field::{Field, value};
use geometry::point::Point;

// The fields, and the mask of each region where there is a list of regions. A mask has a bit for each field, the first field's being bit 0.
#[derive(Clone, Copy)]
pub(crate) struct Regions<'a> {
    pub fields: Fields<'a>,
    pub masks: Option<&'a [u32]>,
}

impl<'a> Regions<'a> {
    // The fields whose bit the mask has, at the front of eight in their order, and how many.
    // Kept by hand: an array of eight beside a number, no plainer: `ArrayVec` fills its room with default values, and a field has none.
    // Here and in `outside_region` the bits are halved field by field, as `chosen` does: a shift by the numbers of `enumerate` is no plainer,
    // as it asks that each is below 32.
    pub(crate) fn active(self, mask: u32) -> ([Field; 8], usize)
        ensures { (length result.0 ≡ 8) × (result.1 ≤ 8) × (take result.1 result.0 ≡ chosen mask self.entry.fields.list.now) }
    {
        let mut active = [Field::Level(0.0); 8];
        let mut n = 0;
        let mut bits = mask;
        for f in self.fields.list {
            if bits % 2 == 1 {
                active[n] = *f;
                n += 1;
            }
            bits /= 2;
        }
        (active, n)
    }

    // Whether p is outside one of the fields: its value above 1e-9.
    fn outside(self, p: Point) -> bool
        ensures { result ≡ outside p self.entry.fields.list.now }
    {
        self.fields.list.iter().any(|f| 1e-9 < value(*f, p))
    }

    // The same of the fields whose bit the mask has.
    fn outside_region(self, p: Point, mask: u32) -> bool
        ensures { result ≡ outside p (chosen mask self.entry.fields.list.now) }
    {
        let mut bits = mask;
        for f in self.fields.list {
            if bits % 2 == 1 && 1e-9 < value(*f, p) {
                return true;
            }
            bits /= 2;
        }
        false
    }

    // Whether p is outside every region: without a list all fields are one region.
    pub(crate) fn outside_all(self, p: Point) -> bool
        ensures { result ≡ outside_all p self.entry.fields.list.now (regions_in self.entry.masks) }
    {
        match self.masks {
            None => self.outside(p),
            Some(masks) => masks.iter().all(|mask| self.outside_region(p, *mask)),
        }
    }
}
