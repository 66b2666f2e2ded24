// Program `board`: a run file on standard input, run and printed.
// Rests on program.
#![tactic(auto)]

fn main(rt: HostRuntime) {
    program::print_from(&rt, &mut rt.stdin());
}
