// Run files run, over an input and an output slice, with a count as the answer.
// Rests on runfile and statements, on decoder and printer. Each function takes any bytes: a slice without room for the output stays as it was, and the answer says so.
#![tactic(auto)]

ghost use Rattle.std.specs.Prelude.{◌≤◌, ◌≡◌, false};
ghost use Rattle.machine.specs.Boards.{fresh_board};
ghost use Rattle.invariants.proofs.Reached.{GoodIf};
ghost use Rattle.decoder.specs.RunFile.{event_limit, event_count, calls_of};
ghost use Rattle.printer.specs.Writing.{slice_printed, answer_printed};
ghost use Rattle.runfile.specs.Program.{StaysSound, printed};
ghost use Rattle.counted.specs.Answers.{count_of};
ghost use Rattle.machine.specs.ByMask.{taken};
ghost use Rattle.counted.specs.Drains.{drained_run, drained_file};
ghost use Rattle.counted.specs.Numbers.{numbered_from, numbered_file};

use arrays::Arrays;
use decoder::file::event_count;
use runfile::begin::begin;
use site::Setup;
use statements::run_and_drain;

// The answer where there is no count: no slice is so long, and no refusal has this number.
pub const NO_COUNT: u64 = 18_446_744_073_709_551_615;

// What `board` prints for an input, and how many bytes it has; NO_COUNT if the slice is shorter than that.
pub fn run_file(input: &[u8], out: &mut [u8]) -> u64
    ensures value { result ≡ count_of (answer_printed (printed input.now) out.old) }
    ensures out_after { out.new ≡ slice_printed (printed input.now) out.old }
{
    match runfile::run::run_file(input, out) {
        Some(count) => count as u64,
        None => NO_COUNT,
    }
}

// The events of a file from the board of its start, a drain with the limit, and the books of all sites.
fn drain_from(input: &[u8], setup: Setup, limit: u64, out: &mut [i64]) -> u64
    requires { StaysSound (fresh_board setup) × GoodIf false (fresh_board setup) × (event_count input.now ≤ event_limit) }
    ensures value { result ≡ (drained_run (fresh_board setup) (calls_of input.now) limit out.old).count }
    ensures out_after { out.new ≡ (drained_run (fresh_board setup) (calls_of input.now) limit out.old).slice }
{
    let left = run_and_drain(input, setup, limit, out);
    if left.why != 0 {
        return NO_COUNT;
    }
    left.count
}

// A run file run, the board drained with the limit, and the books of all sites in the slice: the answer is the drain's count. NO_COUNT,
// and the slice as it was, if the file or its start is refused or the slice is shorter than 64 numbers a site.
pub fn run_drain(input: &[u8], limit: u64, out: &mut [i64]) -> u64
    ensures value { result ≡ (drained_file input.now limit out.old).count }
    ensures out_after { out.new ≡ (drained_file input.now limit out.old).slice }
{
    match begin(input) {
        Ok(setup) => drain_from(input, setup, limit, out),
        Err(_) => NO_COUNT,
    }
}

// The events of a file from the board of its start, the number of each answer at its place; NO_COUNT if the slice has no room for them.
fn answer_from(input: &[u8], setup: Setup, numbers: &mut [u8]) -> u64
    requires { StaysSound (fresh_board setup) × (event_count input.now ≤ event_limit) }
    ensures value { result ≡ (numbered_from (taken (fresh_board setup)) input.now numbers.old).count }
    ensures numbers_after { numbers.new ≡ (numbered_from (taken (fresh_board setup)) input.now numbers.old).slice }
{
    let count = event_count(input);
    if numbers.len() < count {
        return NO_COUNT;
    }
    let mut board = Arrays::empty();
    runfile::run::run_events(&mut board, setup, input, 0, count, numbers);
    count as u64
}

// A run file run, the refusal number of each event's answer in the slice, 0 if it was accepted: the answer is how many they are. NO_COUNT,
// and the slice as it was, if the file or its start is refused or the slice is shorter than that.
pub fn run_events(input: &[u8], numbers: &mut [u8]) -> u64
    ensures value { result ≡ (numbered_file input.now numbers.old).count }
    ensures numbers_after { numbers.new ≡ (numbered_file input.now numbers.old).slice }
{
    match begin(input) {
        Ok(setup) => answer_from(input, setup, numbers),
        Err(_) => NO_COUNT,
    }
}
