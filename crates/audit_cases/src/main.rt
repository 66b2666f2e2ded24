// What `audit` prints for each set of arguments, of which `+` ends one: the repository's examples, stored as cases.
// Rests on audit_program.
#![tactic(auto)]

ghost use Rattle.std.specs.Prelude.{◌≤◌, ◌<◌};

use std::rt::{Env, Files};

// The most arguments that are looked at.
const MOST: usize = 1_000;

// Whether an argument ends a set.
fn is_end(rt: &impl Env, number: usize) -> bool {
    let mut word = [0; 1];
    let n = audit_program::argument(rt, number, &mut word);
    n == 1 && word[0] == b'+'
}

// Where the set ends that begins with an argument: at the next `+`, or behind the last argument.
fn end_of(rt: &impl Env, first: usize, count: usize) -> usize
    requires { (first ≤ count) × (count ≤ 1_000) }
    ensures { (first ≤ result) × (result ≤ count) }
{
    (first..count).find(|&i| is_end(rt, i)).unwrap_or(count)
}

// All sets.
fn audit_sets(rt: &(impl Files + Env + Print + Eprint), count: usize)
    requires { count ≤ 1_000 }
{
    let mut first = 1;
    while first < count {
        let end = end_of(rt, first, count);
        audit_program::audit(rt, first, end);
        first = end + 1;
    }
}

fn main(rt: HostRuntime) {
    let count = audit_program::argument_count(&rt, MOST + 1);
    if count <= MOST {
        audit_sets(&rt, count);
    }
}
