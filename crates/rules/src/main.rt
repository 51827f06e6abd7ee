// The program `rules` of document 01: reads a listing from standard input and prints its plan, or its refusal.
#![tactic(auto)]

use std::io;

fn main(rt: HostRuntime) -> io::Result<()> {
    printing::print_file(&mut rt.stdin(), &mut rt.stdout())
}
