// Program `audit`: do the records in these files agree? `audit [0xHHHH] postings.csv record0.csv record1.csv ..`
// Rests on audit_program.
#![tactic(auto)]

// The most arguments that are looked at: what has more has too many records.
const MOST: usize = 1_000;

fn main(rt: HostRuntime) {
    let count = audit_program::argument_count(&rt, MOST);
    audit_program::audit(&rt, 1, count);
}
