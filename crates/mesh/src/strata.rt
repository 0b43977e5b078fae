// The stratum of a vertex, and the bits of strata.
ghost use Rattle.std.specs.Prelude.{◌≡◌, ◌<◌, length};
ghost use Rattle.mesh.specs.Words.{points_in};
ghost use Rattle.mesh.specs.Complex.{sub};
ghost use Rattle.mesh.specs.Feature.{bits_of, shared, strata_in, stratum_of};

use crate::vertex::Points;
use crate::words::at;
use geometry::bounds::{Bounds, stratum};

// What the strata of vertices come from: their masks, their parameters and the bounds.
#[derive(Clone, Copy)]
pub struct Strata<'a> {
    pub masks: &'a [u32],
    pub parameters: Points<'a>,
    pub bounds: Bounds,
}

impl<'a> Strata<'a> {
    pub fn new(masks: &'a [u32], parameters: Points<'a>, bounds: Bounds) -> Strata<'a>
        ensures { strata_in result ≡ stratum_of masks.now (points_in parameters.entry) bounds }
    {
        Strata {
            masks,
            parameters,
            bounds,
        }
    }

    // The stratum of the vertex v, below 2 ^ 38.
    pub fn of(self, v: u32) -> u64
        ensures value { result ≡ strata_in self.entry v }
        ensures below { result < 274877906944 }
    {
        stratum(
            at(self.masks, v as usize),
            self.parameters.at(v),
            self.bounds,
        )
    }

    // Whether the stratum of u is inside that of v.
    pub fn is_inside(self, u: u32, v: u32) -> bool
        ensures { result ≡ sub (bits_of (strata_in self.entry u)) (bits_of (strata_in self.entry v)) }
    {
        bits_inside(self.of(u), self.of(v))
    }
}

// How many bits two strata share.
pub(crate) fn shared_bits(m: u64, n: u64) -> u32
    requires { m < 274877906944 }
    ensures { result ≡ length (shared m n) }
{
    (m & n).count_ones()
}

// Whether the bits of a stratum are among those of another.
fn bits_inside(m: u64, n: u64) -> bool
    requires { m < 274877906944 }
    ensures { result ≡ sub (bits_of m) (bits_of n) }
{
    m & n == m
}
