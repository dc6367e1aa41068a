// The desk's table on the split: each case prints its name, the price, both sides, and whether the checker accepts the flow with each side; the file `stdout` has what they should be.
#![tactic(auto)]

mod lent;
mod refusals;
mod rows;
mod sizes;
mod ways;

use std::io;

fn main(rt: HostRuntime) -> io::Result<()> {
    rows::run(&rt)?;
    ways::run(&rt)?;
    sizes::run(&rt)?;
    refusals::run(&rt)
}
