// Program `statement`: a run file on standard input, run and drained; the books of every site are printed.
// Rests on program.
#![tactic(auto)]

fn main(rt: HostRuntime) {
    program::state_from(&rt, &mut rt.stdin());
}
