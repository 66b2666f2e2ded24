// A run file and a drain through the calls by value: start, the event's own call for each event, drain, and the books of all sites.
// Rests on counted.
ghost use Rattle.std.specs.Prelude.{◌≡◌};
ghost use Rattle.machine.specs.Runs.{taking, running};
ghost use Rattle.decoder.specs.RunFile.{calls_of};
ghost use Rattle.counted.specs.Drains.{drained_run, drained_file};

use counted::NO_COUNT;
use decoder::file::{call_at, event_count, setup_of, well_formed};
use drain::drain;
use machine::{Board, Outcome};
use runfile::run::refusal_of;
use steps::Call;
use whole_board::figures::books_all;
use whole_board::opening::start;

// A call, by the method that has its name.
pub fn take_call(board: Board, call: Call) -> Outcome
    ensures { result ≡ taking board call }
{
    match call {
        Call::Offer {
            site,
            kind,
            a,
            b,
            amount,
            cut,
        } => board.offer(site, kind, a, b, amount, cut),
        Call::Receive {
            form,
            posting,
            from,
            to,
            cut,
        } => board.receive(form, posting, from, to, cut),
        Call::Order { posting } => board.order(posting),
        Call::Read { site, cut } => board.read(site, cut),
        Call::Crash { site } => board.crash(site),
    }
}

// The board that the events of a file leave: each call gets the board that the one before it handed back.
fn left_by(board: Board, input: &[u8]) -> Board
    ensures { result ≡ running board (calls_of input.now) }
{
    let count = event_count(input);
    let mut after = board;
    for k in 0..count {
        let call = call_at(input, k);
        let outcome = take_call(after, call);
        after = outcome.board;
    }
    after
}

// The events of a file on a board, a drain with the limit, and the books of all sites: the drain's count.
fn drain_after(board: Board, input: &[u8], limit: u64, out: &mut [i64]) -> u64
    ensures value { result ≡ (drained_run board (calls_of input.now) limit out.old).count }
    ensures out_after { out.new ≡ (drained_run board (calls_of input.now) limit out.old).slice }
{
    let left = left_by(board, input);
    let drained = drain(left, limit);
    let answer = books_all(drained.board, out);
    let why = refusal_of(answer);
    if why != 0 {
        return NO_COUNT;
    }
    drained.count
}

// A run file run, the board drained with the limit, and the books of all sites in the slice: the answer is the drain's count. NO_COUNT,
// and the slice as it was, if the file or its start is refused or the slice is shorter than 64 numbers a site.
pub fn run_by_value(input: &[u8], limit: u64, out: &mut [i64]) -> u64
    ensures value { result ≡ (drained_file input.now limit out.old).count }
    ensures out_after { out.new ≡ (drained_file input.now limit out.old).slice }
{
    if well_formed(input) {
        let setup = setup_of(input);
        let started = start(setup.n, setup.f, setup.matrix);
        let answer = started.answer;
        let why = refusal_of(answer);
        if why != 0 {
            return NO_COUNT;
        }
        return drain_after(started.board, input, limit, out);
    }
    NO_COUNT
}
