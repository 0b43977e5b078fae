// Replays stored answers of the Rust: data/units.txt has single functions with their inputs and answers, data/passes.txt lists of calls of the
// passes. For each function the program prints how many lines agree and how many differ, and the same for calls, with those not replayed.
#![tactic(auto)]

mod call;
mod calls;
mod link;
mod pieces;
mod project;
mod surface;
mod tally;
mod unit;
mod words;

use crate::pieces::replay_file;
use crate::tally::Tally;
use crate::unit::Unit;
use crate::words::{Lines, Words};
use input::read_full;
use std::alloc::{AllocError, Global};
use std::rt::Files;
use std::{fs, io};

// How many bytes of units.txt are read.
const UNITS: usize = 262_144;

// How many lines of each function agree and differ; a line that names none is passed over.
fn count_units(alloc: Global, text: &[u8]) -> Result<[Tally; 14], AllocError> {
    let mut tallies = [Tally::default(); 14];
    for line in Lines::of(text) {
        let Some(unit) = Unit::named(line) else {
            continue;
        };
        let mut words = Words::of_line(line);
        words.skip();
        let agrees = unit.agrees(alloc, &mut words)?;
        if let (Some(agrees), Some(tally)) = (agrees, tallies.get_mut(unit as usize)) {
            tally.count(agrees);
        }
    }
    Ok(tallies)
}

fn replay_units(rt: &(impl Files + Print), alloc: Global) -> io::Result<()> {
    let mut file = fs::open(rt, "units.txt")?;
    let mut buffer = vec![in alloc; 0u8; UNITS]?;
    let n = read_full(&mut file, &mut buffer)?;
    let tallies = count_units(alloc, &buffer[..n])?;
    for (unit, tally) in Unit::ALL.into_iter().zip(tallies) {
        println!(rt; "{unit}: agree {}, differ {}", tally.agree, tally.differ)?;
    }
    Ok(())
}

fn replay_passes(rt: &(impl Files + Print), alloc: Global) -> io::Result<()> {
    let mut file = fs::open(rt, "passes.txt")?;
    let tally = replay_file(alloc, &mut file)?;
    println!(rt;
        "calls: agree {}, differ {}, not replayed {}",
        tally.agree, tally.differ, tally.left
    )
}

fn main(rt: HostRuntime) -> io::Result<()> {
    let alloc = rt.alloc();
    replay_units(&rt, alloc)?;
    replay_passes(&rt, alloc)
}
