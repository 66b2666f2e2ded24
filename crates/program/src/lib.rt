// Programs `board` and `statement` over a reader: a run file is read, and what they print is written to standard output.
// Rests on runfile and statements for all of the work, on reading, on std for writing, of which no contract can say more.
#![tactic(auto)]

ghost use Rattle.std.specs.Prelude.{◌≤◌, length, IfSome};

use reading::read_full;
use std::io::Read;

// One byte more than the longest run file has: what fills it is malformed, however much follows.
const ROOM: usize = 40_970;

const OUTPUT: usize = 65_536;

// A text on standard output; if it cannot be written, that is said on standard error.
fn write_out(rt: &(impl Print + Eprint), text: &[u8]) {
    if rt.write_all(text).is_err() {
        let _ = rt.eprintln("The output could not be written to its end.");
    }
}

// The input at the start of the slice: how many bytes it has. What fails is said on standard error.
fn read_input<R: Read>(rt: &impl Eprint, from: &mut R, input: &mut [u8]) -> Option<usize>
    ensures { IfSome result (λ n. n ≤ length input.new) }
{
    if let Ok(length) = read_full(from, input) {
        return Some(length);
    }
    let _ = rt.eprintln("The input could not be read; nothing was done.");
    None
}

// What was made of an input, written out; of what the slice was too short for, nothing is written.
fn write_made(rt: &(impl Print + Eprint), made: Option<usize>, out: &[u8])
    requires { IfSome made (λ n. n ≤ length out.now) }
{
    if let Some(count) = made {
        write_out(rt, &out[..count]);
    }
}

// The buffer has 65,536 bytes, and no output is longer: theorem output_fits of runfile.
pub fn print_from<R: Read>(rt: &(impl Print + Eprint), from: &mut R) {
    let mut input = [0; ROOM];
    let Some(length) = read_input(rt, from, &mut input) else {
        return;
    };
    let mut out = [0; OUTPUT];
    let made = runfile::run::run_file(&input[..length], &mut out);
    write_made(rt, made, &out);
}

// The same for the statement of the books; no output is longer than the buffer: theorem statement_fits of statement_laws.
pub fn state_from<R: Read>(rt: &(impl Print + Eprint), from: &mut R) {
    let mut input = [0; ROOM];
    let Some(length) = read_input(rt, from, &mut input) else {
        return;
    };
    let mut out = [0; OUTPUT];
    let stated = statements::statement(&input[..length], &mut out);
    write_made(rt, stated, &out);
}
