// A run file run, and balances looked up on the board that it leaves: in place, and by value on that board with one number replaced.
// Rests on lookups, on runfile for a run, on by_value and image for a changed board. Each public function takes any bytes.
#![tactic(auto)]

ghost use Rattle.std.specs.Prelude.{◌≤◌, ◌≡◌};
ghost use Rattle.machine.specs.Boards.{fresh_board};
ghost use Rattle.machine.specs.Calls.{refusal_of};
ghost use Rattle.machine.specs.Runs.{running};
ghost use Rattle.decoder.specs.RunFile.{event_limit, event_count, calls_of};
ghost use Rattle.runfile.specs.Program.{StaysSound};
ghost use Rattle.run_lookups.specs.Looked.{count_or, looked_on, looked_file};
ghost use Rattle.run_lookups.specs.Changed.{looked_changed};

use arrays::Arrays;
use by_value::changed::board_after;
use counted::NO_COUNT;
use decoder::file::{EVENTS, event_count};
use image::changed;
use lookups::{LookedUp, look_up, look_up_at};
use runfile::begin::begin;
use runfile::run::{refusal_of, run_events};
use site::Setup;

// A count, or a refusal: 2^64 less its number, so that of 1 it is NO_COUNT.
fn count_or(why: u8, count: usize) -> u64
    ensures { result ≡ count_or why count }
{
    if why == 0 {
        return count as u64;
    }
    NO_COUNT - (why as u64) + 1
}

// What a look-up answers, as a count.
fn answer_of(looked: LookedUp) -> u64
    ensures { result ≡ count_or (refusal_of looked.answer) looked.visited }
{
    count_or(refusal_of(looked.answer), looked.visited)
}

// The events of a file from the board of its start, and a look-up on the board that they leave.
fn look_up_after(input: &[u8], setup: Setup, pairs: &[u8], out: &mut [i64]) -> u64
    requires { StaysSound (fresh_board setup) × (event_count input.now ≤ event_limit) }
    ensures value { result ≡ (looked_on pairs.now out.old (running (fresh_board setup) (calls_of input.now))).count }
    ensures out_after { out.new ≡ (looked_on pairs.now out.old (running (fresh_board setup) (calls_of input.now))).slice }
{
    let mut board = Arrays::empty();
    let mut numbers = [0; EVENTS];
    let events = event_count(input);
    run_events(&mut board, setup, input, 0, events, &mut numbers);
    let looked = look_up_at(&board, setup, pairs, out);
    answer_of(looked)
}

// A run file run, and up to 256 balances looked up on its board: the answer is the count of record places visited. 2^64 less the number of the
// refusal, and the slice as it was, if the file (1), its start (2 to 5) or the look-up (7, 18) is refused.
pub fn run_lookup(input: &[u8], pairs: &[u8], out: &mut [i64]) -> u64
    ensures value { result ≡ (looked_file input.now pairs.now out.old).count }
    ensures out_after { out.new ≡ (looked_file input.now pairs.now out.old).slice }
{
    match begin(input) {
        Ok(setup) => look_up_after(input, setup, pairs, out),
        Err(not_begun) => count_or(not_begun.refusal.number(), 0),
    }
}

// What run_lookup does, by value on the board that the file leaves with the number at `place` of its row replaced by `value`, which 6 may refuse.
pub fn lookup_changed(input: &[u8], place: u64, value: u64, pairs: &[u8], out: &mut [i64]) -> u64
    ensures value { result ≡ (looked_changed input.now place value pairs.now out.old).count }
    ensures out_after { out.new ≡ (looked_changed input.now place value pairs.now out.old).slice }
{
    match begin(input) {
        Ok(setup) => {
            let left = board_after(input, setup);
            let board = changed(left, place as usize, value);
            let looked = look_up(board, pairs, out);
            answer_of(looked)
        }
        Err(not_begun) => count_or(not_begun.refusal.number(), 0),
    }
}
