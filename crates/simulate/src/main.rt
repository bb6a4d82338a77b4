// The simulate program: a schedule on standard input, its printout on standard output.
#![tactic(auto)]

use std::io;

fn main(rt: HostRuntime) -> io::Result<()> {
    stream::run(&mut rt.stdin(), &mut rt.stdout())
}
