// The traffic program: a schedule on standard input, the report of the run open at its end on standard output.
#![tactic(auto)]

use std::io;

fn main(rt: HostRuntime) -> io::Result<()> {
    stream::report(&mut rt.stdin(), &mut rt.stdout())
}
