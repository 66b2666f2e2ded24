// A run file run and printed: from the board of its start, each event is taken by the board that the one before it left.
// Rests on begin and event, on whole_board, decoder and printer.
ghost use Rattle.std.specs.Prelude.{◌≤◌, ◌≡◌, ◌++◌, length, take, drop};
ghost use Rattle.machine.specs.Boards.{fresh_board};
ghost use Rattle.machine.specs.Calls.{answer_of};
ghost use Rattle.machine.specs.Runs.{running};
ghost use Rattle.machine.specs.View.{view, Right};
ghost use Rattle.decoder.specs.RunFile.{event_limit, event_count, calls_of};
ghost use Rattle.runfile.specs.Program.{StaysSound, refusals, printed_run, printed};
ghost use Rattle.runfile.specs.Parts.{calls_from};
ghost use Rattle.printer.specs.Writing.{slice_printed, written_of, answer_printed};

use crate::begin::begin;
use crate::ended_on;
use crate::event::perform_at;
use arrays::Arrays;
use decoder::file::{EVENTS, event_count};
use machine::Answer;
use printer::print::{print_refused, print_run};
use site::Setup;
use steps::refusals::answer_number;
use whole_board::quiet::is_quiet_at;

// The number of a refusal; 0 of what is accepted.
pub fn refusal_of(answer: Answer) -> u8
    ensures { result ≡ (answer_of answer).0 }
{
    match answer {
        Answer::Done => 0,
        Answer::Offered(_) => 0,
        Answer::Refused(why) => why,
    }
}

// The events of a part of a file, from event `first` on and before event `last`, taken by a board at work; in `numbers`, at the place of each,
// the refusal number of its answer.
pub fn run_events(
    board: &mut Arrays,
    setup: Setup,
    input: &[u8],
    first: usize,
    last: usize,
    numbers: &mut [u8],
)
    requires { Right board.old × StaysSound (view setup board.old) × (first ≤ last) × (last ≤ length numbers.old) }
    ensures carried_after { view setup board.new ≡ running (view setup board.old) (calls_from input.now first last) }
    ensures right { Right board.new }
    ensures numbers_after { numbers.new ≡ take first numbers.old ++ (refusals (view setup board.old) (calls_from input.now first last) ++ drop last numbers.old) }
{
    for k in first..last {
        let answer = perform_at(board, setup, input, k);
        numbers[k] = answer_number(answer);
    }
}

// The events of a file from the board of its start, printed.
fn run_from(input: &[u8], setup: Setup, out: &mut [u8]) -> Option<usize>
    requires { StaysSound (fresh_board setup) × (event_count input.now ≤ event_limit) }
    ensures value { result ≡ answer_printed (printed_run (fresh_board setup) (calls_of input.now)) out.old }
    ensures out_after { out.new ≡ slice_printed (printed_run (fresh_board setup) (calls_of input.now)) out.old }
    ensures result_value { written_of result ≡ written_of (answer_printed (printed_run (fresh_board setup) (calls_of input.now)) out.old) }
{
    let mut board = Arrays::empty();
    let mut numbers = [0; EVENTS];
    let count = event_count(input);
    run_events(&mut board, setup, input, 0, count, &mut numbers);
    let quiet = is_quiet_at(&board, setup);
    let ended = ended_on(&board, setup.n, quiet);
    print_run(&numbers[..count], ended, out)
}

// A run file, run and printed: of any input what `board` prints, into the slice if it has room for it.
pub fn run_file(input: &[u8], out: &mut [u8]) -> Option<usize>
    ensures value { result ≡ answer_printed (printed input.now) out.old }
    ensures out_after { out.new ≡ slice_printed (printed input.now) out.old }
    ensures result_value { written_of result ≡ written_of (answer_printed (printed input.now) out.old) }
{
    match begin(input) {
        Ok(setup) => run_from(input, setup, out),
        Err(not_begun) => print_refused(not_begun.refusal.number(), out),
    }
}
