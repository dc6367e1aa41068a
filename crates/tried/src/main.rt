// The desk's table, run: each case prints its name and its answer, and the file `stdout` has what they should be.
#![tactic(auto)]

mod answers;
mod cards;
mod checks;
mod reader;
mod rules;
mod sides;

use std::io;

fn main(rt: HostRuntime) -> io::Result<()> {
    reader::run(&rt)?;
    sides::run(&rt)?;
    checks::run(&rt)?;
    rules::run(&rt)
}
