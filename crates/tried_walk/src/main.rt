// The desk's table on the gate and the walk: each case prints its name, the answer, the rows and the side; the file `stdout` has what they should be.
#![tactic(auto)]

mod books;
mod gates;
mod lent;
mod refusals;
mod round;
mod rounds;
mod rows;

use std::io;

fn main(rt: HostRuntime) -> io::Result<()> {
    rows::run(&rt)?;
    rounds::run(&rt)?;
    gates::run(&rt)?;
    refusals::run(&rt)?;
    books::run(&rt)
}
