// The square root at special operands, at the ends of the range, at exact squares and their
// neighbours, and beside ties.
use crate::patterns::float_of;
use geometry::root::root;
use geometry::word::pattern;
use std::io;

const ROOTS: [u64; 46] = [
    // NaN of either sign, infinities, zeros
    0x7ff8_0000_0000_0000,
    0xfff8_0000_0000_0000,
    0x7ff0_0000_0000_0001,
    0x7ff0_0000_0000_0000,
    0xfff0_0000_0000_0000,
    0x0000_0000_0000_0000,
    0x8000_0000_0000_0000,
    // below zero: -1, the smallest and the largest in size
    0xbff0_0000_0000_0000,
    0x8000_0000_0000_0001,
    0xffef_ffff_ffff_ffff,
    // subnormals: 1, 2, 3, 4 units, the middle, the largest
    0x0000_0000_0000_0001,
    0x0000_0000_0000_0002,
    0x0000_0000_0000_0003,
    0x0000_0000_0000_0004,
    0x0008_0000_0000_0000,
    0x000f_ffff_ffff_ffff,
    // the smallest normal, the next, the largest, the one before
    0x0010_0000_0000_0000,
    0x0010_0000_0000_0001,
    0x7fef_ffff_ffff_ffff,
    0x7fef_ffff_ffff_fffe,
    // 1 and its neighbours
    0x3fef_ffff_ffff_ffff,
    0x3ff0_0000_0000_0000,
    0x3ff0_0000_0000_0001,
    // 2, 4, 9, 432 and the neighbours of 4 and 9
    0x4000_0000_0000_0000,
    0x400f_ffff_ffff_ffff,
    0x4010_0000_0000_0000,
    0x4010_0000_0000_0001,
    0x4021_ffff_ffff_ffff,
    0x4022_0000_0000_0000,
    0x4022_0000_0000_0001,
    0x407b_0000_0000_0000,
    // (2^26 + 1)^2 and its neighbours; (2^26 + 1/2)^2, whose root is a half away from a whole number
    0x4330_0000_0800_0001,
    0x4330_0000_0800_0000,
    0x4330_0000_0800_0002,
    0x4310_0000_0400_0000,
    // the square of 1 + 2^-52, rounded down and up, and of 2 - 2^-52
    0x3ff0_0000_0000_0002,
    0x3ff0_0000_0000_0003,
    0x400f_ffff_ffff_fffe,
    0x400f_ffff_ffff_fffd,
    // near ties: roots close to the middle between two values
    0x3ff0_0000_0000_0005,
    0x3ff0_0000_0000_0007,
    0x7fe1_ccf3_85eb_c8a0,
    0x0000_0000_0000_8001,
    // 0.1, 0.5, 1e300
    0x3fb9_9999_9999_999a,
    0x3fe0_0000_0000_0000,
    0x7e37_e43c_8800_759c,
];

pub(crate) fn run(rt: &impl Print) -> io::Result<()> {
    for n in ROOTS {
        let r = pattern(root(float_of(n)));
        println!(rt; "root {n:016x} {r:016x}")?;
    }
    Ok(())
}
