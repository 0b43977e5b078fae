// Reads a block file from standard input, runs the three passes on what it holds, and prints the table or the number of the refusal.
#![tactic(auto)]

ghost use Rattle.std.specs.Prelude.{ℕ, List, IfSome, OnOk, take};
ghost use Rattle.std.specs.Io.KnownBytes.{Appends, Consumes};
ghost use Rattle.report.specs.Report.{report};

use anyhow::{Context, Result};
use input::read_full;
use report::report::report;
use std::io;
use std::io::{Read, Write};

// Writes the text for the first 2,561 bytes of a reader, and takes no more of it. A file of 24 vertices and 24 elements has 2,560 bytes. One byte
// more is enough to see that bytes follow, so an endless input ends too.
fn plot<R: Read, W: Write>(from: &mut R, to: &mut W) -> Result<()>
    ensures wrote { OnOk result (IfSome (R.remaining from.old) (λ file. Appends (W.contents to.old) (W.contents to.new) (report (take 2561 file)))) }
    ensures took { OnOk result (IfSome (R.remaining from.old) (λ file. Consumes (R.remaining from.old) (R.remaining from.new) (take 2561 file))) }
{
    let mut input = [0u8; 2561];
    let mut out = [0u8; 50000];
    let n = read_full(from, &mut input).context("plot: the file was not read whole")?;
    let r = report(&input[..n], &mut out);
    to.write_all(&out[..r])
        .context("plot: the table was not written whole")?;
    Ok(())
}

fn main(rt: HostRuntime) -> Result<()> {
    plot(&mut rt.reader(), &mut io::writer(&rt))
}
