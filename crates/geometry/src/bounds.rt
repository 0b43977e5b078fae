// The box by value: the spacing h, ranks, and the bits for lying on the box.
ghost use Rattle.std.specs.Prelude.{◌≡◌};
ghost use Rattle.geometry.specs.Bounds.{place_of, cell_size, spacing, periodic_in, canonical_value, canonical, side, cap, stratum};
ghost use Rattle.geometry.specs.Rank.{nearest_away, rank_value, rank};

use crate::float::smaller;
use crate::point::Point;
use std::num::saturating_f64_to_u64;

#[derive(Clone, Copy)]
pub struct Bounds {
    pub lo: Point,
    pub hi: Point,
}

// The box in one direction.
#[derive(Clone, Copy)]
pub struct Span {
    pub lo: f64,
    pub hi: f64,
}

// The three directions.
#[derive(Clone, Copy, PartialEq, Eq, Debug)]
pub enum Axis {
    X = 0,
    Y = 1,
    Z = 2,
}

#[derive(Clone, Copy)]
pub struct Cells {
    pub x: u32,
    pub y: u32,
    pub z: u32,
}

// The box with what stands beside it. Bits of periodic: x is 1, y 2, z 4.
// Kept by hand: `periodic` is a set of bits as the C interface gives it, where an unknown bit can be refused.
#[derive(Clone, Copy)]
pub struct Options {
    pub bounds: Bounds,
    pub cells: Cells,
    pub periodic: u32,
    pub passes: u32,
}

// The rank per direction.
#[derive(Clone, Copy)]
pub struct Ranks {
    pub x: u64,
    pub y: u64,
    pub z: u64,
}

// The place of a direction's bit.
impl From<Axis> for u32 {
    ghost from_gives = { λ axis n. n ≡ place_of axis };

    fn from(axis: Axis) -> u32 {
        axis as u32
    }
}

// Kept by hand: no plainer: one function of an `Axis` has three arms that name the same two fields each, and each caller names the axis still.
impl Bounds {
    fn x(self) -> Span
        ensures { result ≡ record { lo = self.lo.x; hi = self.hi.x } }
    {
        Span {
            lo: self.lo.x,
            hi: self.hi.x,
        }
    }

    fn y(self) -> Span
        ensures { result ≡ record { lo = self.lo.y; hi = self.hi.y } }
    {
        Span {
            lo: self.lo.y,
            hi: self.hi.y,
        }
    }

    fn z(self) -> Span
        ensures { result ≡ record { lo = self.lo.z; hi = self.hi.z } }
    {
        Span {
            lo: self.lo.z,
            hi: self.hi.z,
        }
    }
}

impl Span {
    // (hi - lo) / cells.
    pub fn cell_size(self, cells: u32) -> f64
        ensures { result ≡ cell_size self.lo self.hi cells }
    {
        (self.hi - self.lo) / f64::from(cells)
    }

    // In a periodic direction lo for hi.
    pub fn canonical_value(self, value: f64, periodic: bool) -> f64
        ensures { result ≡ canonical_value value self.lo self.hi periodic }
    {
        if periodic && value == self.hi {
            self.lo
        } else {
            value
        }
    }

    // The rank of a value in one direction.
    pub fn rank_value(self, value: f64) -> u64
        ensures { result ≡ rank_value value self.lo self.hi }
    {
        nearest_away((value - self.lo) / (self.hi - self.lo) * 100000000000.0)
    }

    // 1 for exactly on lo, else 2 for exactly on hi, else 0: the two bits of a direction in a cap.
    // Kept by hand: no enum is plainer, since `cap` adds the two bits up as a number.
    pub fn side(self, value: f64) -> u64
        ensures { result ≡ side value self.lo self.hi }
    {
        if value == self.lo {
            1
        } else if value == self.hi {
            2
        } else {
            0
        }
    }
}

// h: the smallest cell size.
// Kept by hand: a fold over the three missed the bar of speed, by a third.
pub fn spacing(o: Options) -> f64
    ensures { result ≡ spacing o }
{
    let b = o.bounds;
    let x = b.x().cell_size(o.cells.x);
    let y = b.y().cell_size(o.cells.y);
    let z = b.z().cell_size(o.cells.z);
    smaller(smaller(smaller(f64::INFINITY, x), y), z)
}

// Whether the bit of a direction is set: any number may be asked for, and from 32 on none is set.
// Kept by hand: an `Axis` is no plainer here, and would ask more of callers; `Options::is_periodic` takes one.
pub fn periodic_in(periodic: u32, axis: u32) -> bool
    ensures { result ≡ periodic_in periodic axis }
{
    axis < 32 && (periodic >> axis) % 2 == 1
}

impl Options {
    pub fn is_periodic(self, axis: Axis) -> bool
        ensures { result ≡ periodic_in self.periodic (place_of axis) }
    {
        periodic_in(self.periodic, u32::from(axis))
    }
}

// p with lo for hi in each periodic direction.
// Kept by hand, with `rank`, `cap` and `stratum`: no plainer as methods: each is as much of the point as of the box.
#[tactic(auto, unfolding(crate::specs::Bounds::canonical))]
pub fn canonical(p: Point, o: Options) -> Point
    ensures { result ≡ canonical p o }
{
    let b = o.bounds;
    Point {
        x: b.x().canonical_value(p.x, o.is_periodic(Axis::X)),
        y: b.y().canonical_value(p.y, o.is_periodic(Axis::Y)),
        z: b.z().canonical_value(p.z, o.is_periodic(Axis::Z)),
    }
}

// q to the nearest whole number, a half away from zero: 0 for a NaN or below 0, and at most
// 2 ^ 64 - 1.
pub fn nearest_away(q: f64) -> u64
    ensures { result ≡ nearest_away q }
{
    saturating_f64_to_u64(q.round())
}

// The rank of p: in a periodic direction hi counts as lo.
#[tactic(auto, unfolding(crate::specs::Rank::rank))]
pub fn rank(p: Point, o: Options) -> Ranks
    ensures { result ≡ rank p o }
{
    let q = canonical(p, o);
    let b = o.bounds;
    Ranks {
        x: b.x().rank_value(q.x),
        y: b.y().rank_value(q.y),
        z: b.z().rank_value(q.z),
    }
}

// Bits 32 to 37: two a direction, the lower for lying on lo, the upper for lying on hi.
#[tactic(auto, unfolding(crate::specs::Bounds::cap))]
pub fn cap(p: Point, b: Bounds) -> u64
    ensures { result ≡ cap p b }
{
    let x = b.x().side(p.x);
    let y = b.y().side(p.y);
    let z = b.z().side(p.z);
    x * 0x1_0000_0000 + y * 0x4_0000_0000 + z * 0x10_0000_0000
}

// The mask with the cap's bits above it.
pub fn stratum(mask: u32, p: Point, b: Bounds) -> u64
    ensures { result ≡ stratum mask p b }
{
    u64::from(mask) + cap(p, b)
}
