// The program `statement`: a run file is run, the board drained to quiet, and the books of every site printed; and the same without printing.
// Rests on its modules lines and same for the lines, on decoder and runfile for the file and its run, on printer for what is printed, on drain and machine.
#![tactic(auto)]

ghost use Rattle.std.specs.Prelude.{◌≤◌, ◌≡◌, false};
ghost use Rattle.machine.specs.Boards.{fresh_board};
ghost use Rattle.machine.specs.Calls.{refusal_of};
ghost use Rattle.machine.specs.Runs.{running};
ghost use Rattle.machine.specs.Figures.{showing_all};
ghost use Rattle.drain.specs.Drain.{drained};
ghost use Rattle.invariants.proofs.Reached.{GoodIf};
ghost use Rattle.decoder.specs.RunFile.{event_limit, event_count, calls_of};
ghost use Rattle.runfile.specs.Program.{StaysSound};
ghost use Rattle.printer.specs.Writing.{slice_printed, written_of, answer_printed};
ghost use Rattle.statements.specs.Statement.{stated_run, stated};

use crate::lines::print_statement;
use arrays::{Arrays, DOWN};
use books::FIGURES;
use decoder::file::{EVENTS, event_count};
use drain::drain_events;
use printer::print::print_refused;
use runfile::begin::begin;
use runfile::run::{refusal_of, run_events};
use sets::wide;
use site::{SITES, Setup};
use whole_board::figures::books_all_at;

pub mod lines;
pub mod same;

// How many numbers the books of all sites that there can be have.
const ALL_FIGURES: usize = SITES * FIGURES;

// A drain with this limit ends quiet on every board that a run reaches.
const DRAIN: u64 = 27136;

// What a run and a drain leave beside the books: the drain's count, the sites that are down, and the number of the books' refusal.
#[derive(Drop)]
pub struct AfterDrain {
    pub count: u64,
    pub down: u8,
    pub why: u8,
}

// The events of a file from the board of its start, a drain with the limit, and the books of all sites in the slice.
pub fn run_and_drain(input: &[u8], setup: Setup, limit: u64, out: &mut [i64]) -> AfterDrain
    requires { StaysSound (fresh_board setup) × GoodIf false (fresh_board setup) × (event_count input.now ≤ event_limit) }
    ensures count_value { result.count ≡ (drained (running (fresh_board setup) (calls_of input.now)) limit).count }
    ensures down_value { result.down ≡ (drained (running (fresh_board setup) (calls_of input.now)) limit).board.down }
    ensures why_value { result.why ≡ refusal_of (showing_all (drained (running (fresh_board setup) (calls_of input.now)) limit).board out.old).answer }
    ensures limit_value { (drained (running (fresh_board setup) (calls_of input.now)) limit).board.setup ≡ setup }
    ensures out_after { out.new ≡ (showing_all (drained (running (fresh_board setup) (calls_of input.now)) limit).board out.old).slice }
{
    let mut board = Arrays::empty();
    let mut numbers = [0; EVENTS];
    let events = event_count(input);
    run_events(&mut board, setup, input, 0, events, &mut numbers);
    let done = drain_events(&mut board, setup, limit);
    let answer = books_all_at(&board, setup, out);
    AfterDrain {
        count: done.count,
        down: board.bytes[DOWN],
        why: refusal_of(answer),
    }
}

// The events of a file from the board of its start, then a drain, and the statement of the board that it leaves, printed.
fn state_from(input: &[u8], setup: Setup, out: &mut [u8]) -> Option<usize>
    requires { StaysSound (fresh_board setup) × GoodIf false (fresh_board setup) × (event_count input.now ≤ event_limit) }
    ensures value { result ≡ answer_printed (stated_run (fresh_board setup) (calls_of input.now)) out.old }
    ensures out_after { out.new ≡ slice_printed (stated_run (fresh_board setup) (calls_of input.now)) out.old }
    ensures result_value { written_of result ≡ written_of (answer_printed (stated_run (fresh_board setup) (calls_of input.now)) out.old) }
{
    let mut figures = [0; ALL_FIGURES];
    let left = run_and_drain(input, setup, DRAIN, &mut figures);
    let n = setup.n;
    let count = FIGURES * wide(n);
    print_statement(&figures[..count], n, left.down, out)
}

// A run file, run, drained and stated: of any input what `statement` prints, into the slice if it has room for it.
pub fn statement(input: &[u8], out: &mut [u8]) -> Option<usize>
    ensures value { result ≡ answer_printed (stated input.now) out.old }
    ensures out_after { out.new ≡ slice_printed (stated input.now) out.old }
    ensures result_value { written_of result ≡ written_of (answer_printed (stated input.now) out.old) }
{
    match begin(input) {
        Ok(setup) => state_from(input, setup, out),
        Err(not_begun) => print_refused(not_begun.refusal.number(), out),
    }
}
