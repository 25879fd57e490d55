// Reads a run header from standard input and prints one line: what a run with it holds, or `no` and the number of the question that it fails.
#![tactic(auto)]

use std::io;

fn main(rt: HostRuntime) -> io::Result<()> {
    sheet::print::print_line(&mut rt.stdin(), &mut rt.stdout())
}
