// The rank of a value in a direction, at halves and their neighbours, at the box's ends and outside.
// A row has the patterns of value, lo and hi, and whether the direction is periodic.
use crate::patterns::float_of;
use geometry::bounds::Span;
use std::io;

const RANKS: [(u64, u64, u64, bool); 25] = [
    // M8: box 0 to 1, value 2^-12
    (
        0x3f30_0000_0000_0000,
        0x0000_0000_0000_0000,
        0x3ff0_0000_0000_0000,
        false,
    ),
    // M9: value 1, and periodic
    (
        0x3ff0_0000_0000_0000,
        0x0000_0000_0000_0000,
        0x3ff0_0000_0000_0000,
        false,
    ),
    (
        0x3ff0_0000_0000_0000,
        0x0000_0000_0000_0000,
        0x3ff0_0000_0000_0000,
        true,
    ),
    // value 0 and -0
    (
        0x0000_0000_0000_0000,
        0x0000_0000_0000_0000,
        0x3ff0_0000_0000_0000,
        false,
    ),
    (
        0x8000_0000_0000_0000,
        0x0000_0000_0000_0000,
        0x3ff0_0000_0000_0000,
        false,
    ),
    // just below, at and above halves: 5e-12, 2^-12 and its neighbours
    (
        0x3d95_fd7f_e179_6495,
        0x0000_0000_0000_0000,
        0x3ff0_0000_0000_0000,
        false,
    ),
    (
        0x3d95_fd7f_e179_6496,
        0x0000_0000_0000_0000,
        0x3ff0_0000_0000_0000,
        false,
    ),
    (
        0x3f2f_ffff_ffff_ffff,
        0x0000_0000_0000_0000,
        0x3ff0_0000_0000_0000,
        false,
    ),
    (
        0x3f30_0000_0000_0001,
        0x0000_0000_0000_0000,
        0x3ff0_0000_0000_0000,
        false,
    ),
    // 0.5e-11 + 1e-11 and neighbours
    (
        0x3db0_7e1f_e91b_0b70,
        0x0000_0000_0000_0000,
        0x3ff0_0000_0000_0000,
        false,
    ),
    (
        0x3db0_7e1f_e91b_0b6f,
        0x0000_0000_0000_0000,
        0x3ff0_0000_0000_0000,
        false,
    ),
    (
        0x3db0_7e1f_e91b_0b71,
        0x0000_0000_0000_0000,
        0x3ff0_0000_0000_0000,
        false,
    ),
    // just below 1
    (
        0x3fef_ffff_ffff_ffff,
        0x0000_0000_0000_0000,
        0x3ff0_0000_0000_0000,
        false,
    ),
    // a box of the largest bounds, of -1 to 1, and of one unit
    (
        0x0000_0000_0000_0000,
        0xc130_0000_0000_0000,
        0x4130_0000_0000_0000,
        false,
    ),
    (
        0x4130_0000_0000_0000,
        0xc130_0000_0000_0000,
        0x4130_0000_0000_0000,
        false,
    ),
    (
        0x3fd0_0000_0000_0000,
        0xbff0_0000_0000_0000,
        0x3ff0_0000_0000_0000,
        false,
    ),
    (
        0x0000_0000_0000_0001,
        0x0000_0000_0000_0000,
        0x0000_0000_0000_0001,
        false,
    ),
    // -0 equals hi 0 in a periodic direction
    (
        0x8000_0000_0000_0000,
        0xbff0_0000_0000_0000,
        0x0000_0000_0000_0000,
        true,
    ),
    // outside: below lo, above hi, far above, NaN, infinite
    (
        0xbff0_0000_0000_0000,
        0x0000_0000_0000_0000,
        0x3ff0_0000_0000_0000,
        false,
    ),
    (
        0x4000_0000_0000_0000,
        0x0000_0000_0000_0000,
        0x3ff0_0000_0000_0000,
        false,
    ),
    (
        0x7e37_e43c_8800_759c,
        0x0000_0000_0000_0000,
        0x3ff0_0000_0000_0000,
        false,
    ),
    (
        0x7ff8_0000_0000_0000,
        0x0000_0000_0000_0000,
        0x3ff0_0000_0000_0000,
        false,
    ),
    (
        0x7ff0_0000_0000_0000,
        0x0000_0000_0000_0000,
        0x3ff0_0000_0000_0000,
        false,
    ),
    (
        0xfff0_0000_0000_0000,
        0x0000_0000_0000_0000,
        0x3ff0_0000_0000_0000,
        false,
    ),
    // no box: lo is hi
    (
        0x3ff0_0000_0000_0000,
        0x3ff0_0000_0000_0000,
        0x3ff0_0000_0000_0000,
        false,
    ),
];

pub(crate) fn run(rt: &impl Print) -> io::Result<()> {
    for (value, lo, hi, periodic) in RANKS {
        let span = Span {
            lo: float_of(lo),
            hi: float_of(hi),
        };
        let rank = span.rank_value(span.canonical_value(float_of(value), periodic));
        println!(rt;
            "rank {value:016x} {lo:016x} {hi:016x} {} {rank}",
            u8::from(periodic)
        )?;
    }
    Ok(())
}
