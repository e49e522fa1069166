// Runs the cases that are not proved, and prints what each gives; `stdout` beside this folder holds what it must be.
#![tactic(auto)]

mod checks;
mod edges;
mod ends;
mod joins;
mod lines;
mod pairs;
mod readers;
mod sessions;
mod steps;
mod tables;

use std::io;

fn main(rt: HostRuntime) -> io::Result<()> {
    checks::all(&rt)?;
    readers::all(&rt)?;
    sessions::all(&rt)?;
    steps::all(&rt)?;
    ends::all(&rt)?;
    joins::all(&rt)?;
    edges::all(&rt)
}
