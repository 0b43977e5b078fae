// An f64 as words and as the number that keeps the order.
use crate::patterns::float_of;
use geometry::word::{high_word, low_word, order_bits};
use std::io;

const WORDS: [u64; 13] = [
    0x0000_0000_0000_0000,
    0x8000_0000_0000_0000,
    0x0000_0000_0000_0001,
    0x000f_ffff_ffff_ffff,
    0x0010_0000_0000_0000,
    0x3ff0_0000_0000_0000,
    0x3ff0_0000_0000_0001,
    0x7fef_ffff_ffff_ffff,
    0x7ff0_0000_0000_0000,
    0xbff0_0000_0000_0000,
    0xfff0_0000_0000_0000,
    0x7ff8_0000_0000_0000,
    0xffff_ffff_ffff_ffff,
];

pub(crate) fn run(rt: &impl Print) -> io::Result<()> {
    for n in WORDS {
        let x = float_of(n);
        println!(rt;
            "words {n:016x} {} {} {:016x}",
            low_word(x),
            high_word(x),
            order_bits(x)
        )?;
    }
    Ok(())
}
