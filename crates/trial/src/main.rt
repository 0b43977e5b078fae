// The papers' edges, run on the compiled functions: each line says what was tried and what came.
#![tactic(auto)]

mod blocks;
mod boxes;
mod fields;
mod files;
mod inside;
mod intakes;
mod meshes;
mod patterns;
mod ranks;
mod roots;
mod scores;
mod words;

use std::io;

fn main(rt: HostRuntime) -> io::Result<()> {
    let alloc = rt.alloc();
    roots::run(&rt)?;
    scores::run(&rt)?;
    ranks::run(&rt)?;
    boxes::run(&rt)?;
    fields::run(&rt)?;
    words::run(&rt)?;
    intakes::run(&rt, alloc)?;
    blocks::run(&rt, alloc)?;
    inside::run(&rt, alloc)
}
