// A changed board takes a call: of the board that a file leaves one number is replaced, then the board takes the call that ten bytes ask for.
// Rests on run for the calls by value, on counted for NO_COUNT, on runfile for the board that a file leaves, on image for a board as a row of numbers.
ghost use Rattle.std.specs.Prelude.{◌≤◌, ◌≡◌, ◌++◌, length, drop};
ghost use Rattle.machine.specs.Boards.{fresh_board};
ghost use Rattle.machine.specs.Runs.{taking, running};
ghost use Rattle.drain.specs.Drain.{drained};
ghost use Rattle.decoder.specs.RunFile.{event_limit, event_count, calls_of};
ghost use Rattle.runfile.specs.Program.{StaysSound};
ghost use Rattle.by_value.specs.Changed.{is_request, request_of, reply_of_call, reply_of_drain, reply_to, figures_after, filled_long, filled, handed_back, may_call, call_changed};

use crate::run::take_call;
use crate::{Reply, Request};
use arrays::Arrays;
use counted::NO_COUNT;
use decoder::file::{EVENT, EVENTS, call_of, event_count, event_ok, setup_of, well_formed};
use drain::{Ending, drain};
use image::writing::write_image;
use image::{IMAGE, changed};
use machine::taking::board_of;
use machine::{Answer, Board};
use runfile::run::{refusal_of, run_events};
use site::Setup;
use steps::Call;
use whole_board::figures::books_all;
use whole_board::opening::start_fits;

// The codes that no event of a run file has.
const DRAIN: u8 = 0;

const BOOKS: u8 = 255;

// How many numbers are filled in: those of a board, and two values.
const FILLED: usize = IMAGE + 2;

// ---- what ten bytes ask for

// Whether the bytes are ten, and ask for something.
fn is_request(event: &[u8]) -> bool
    ensures { result ≡ is_request event.now }
{
    if event.len() != EVENT {
        return false;
    }
    if event[0] == DRAIN {
        return true;
    }
    if event[0] == BOOKS {
        return true;
    }
    event_ok(event)
}

// What they ask for.
fn request_of(event: &[u8]) -> Request
    requires { 1 ≤ length event.now }
    ensures { result ≡ request_of event.now }
{
    if event[0] == DRAIN {
        return Request::Drain;
    }
    if event[0] == BOOKS {
        return Request::Books;
    }
    let call = call_of(event);
    Request::Take(call)
}

// ---- what the board answers

// A call: of an accepted offer the first value is the posting's number.
fn reply_of_call(board: Board, call: Call) -> Reply
    ensures { result ≡ reply_of_call (taking board call) }
{
    let outcome = take_call(board, call);
    let after = outcome.board;
    let answer = outcome.answer;
    match answer {
        Answer::Done => {
            return Reply {
                number: 0,
                board: after,
                first: 0,
                second: 0,
            };
        }
        Answer::Offered(m) => {
            return Reply {
                number: 0,
                board: after,
                first: m as u64,
                second: 0,
            };
        }
        Answer::Refused(why) => {
            return Reply {
                number: why,
                board: after,
                first: 0,
                second: 0,
            };
        }
    }
}

// A drain: the first value is 1 if it was spent, the second is its count.
fn reply_of_drain(board: Board, limit: u64) -> Reply
    ensures { result ≡ reply_of_drain (drained board limit) }
{
    let done = drain(board, limit);
    let after = done.board;
    let ending = done.ending;
    match ending {
        Ending::Quiet => {
            return Reply {
                number: 0,
                board: after,
                first: 0,
                second: done.count,
            };
        }
        Ending::Spent => {
            return Reply {
                number: 0,
                board: after,
                first: 1,
                second: done.count,
            };
        }
        Ending::Refused(why) => {
            return Reply {
                number: why,
                board: after,
                first: 0,
                second: done.count,
            };
        }
    }
}

// A request; the books of all sites fill the figures.
fn reply_to(board: Board, request: Request, limit: u64, figures: &mut [i64]) -> Reply
    ensures value { result ≡ reply_to board request limit figures.old }
    ensures figures_after { figures.new ≡ figures_after board request figures.old }
{
    match request {
        Request::Take(call) => {
            return reply_of_call(board, call);
        }
        Request::Drain => {
            return reply_of_drain(board, limit);
        }
        Request::Books => {
            let answer = books_all(board, figures);
            let why = refusal_of(answer);
            return Reply {
                number: why,
                board: board,
                first: 0,
                second: 0,
            };
        }
    }
}

// ---- what is filled in

// Numbers copied to the beginning of a slice.
fn copy(values: &[u64], out: &mut [u64])
    requires { length values.now ≤ length out.old }
    ensures { out.new ≡ values.now ++ drop (length values.now) out.old }
{
    for k in 0..values.len() {
        out[k] = values[k];
    }
}

// The board handed back and the two values.
fn fill(board: Board, first: u64, second: u64, out: &mut [u64])
    requires { filled_long ≤ length out.old }
    ensures { out.new ≡ filled board first second out.old }
{
    let mut row = [0; IMAGE];
    write_image(board, &mut row);
    copy(&row[..], out);
    out[IMAGE] = first;
    out[IMAGE + 1] = second;
}

// A request to a board: the number of the refusal, and both slices filled.
fn hand_back(
    board: Board,
    request: Request,
    limit: u64,
    figures: &mut [i64],
    out: &mut [u64],
) -> u64
    requires { filled_long ≤ length out.old }
    ensures value { result ≡ (handed_back board request limit figures.old out.old).number }
    ensures figures_after { figures.new ≡ (handed_back board request limit figures.old out.old).figures }
    ensures out_after { out.new ≡ (handed_back board request limit figures.old out.old).board }
{
    let reply = reply_to(board, request, limit, figures);
    fill(reply.board, reply.first, reply.second, out);
    reply.number as u64
}

// ---- the changed board

// The board that a file leaves: its events are done in place on the arrays of a board at work, which takes less time than the calls by value.
pub fn board_after(input: &[u8], setup: Setup) -> Board
    requires { StaysSound (fresh_board setup) × (event_count input.now ≤ event_limit) }
    ensures { result ≡ running (fresh_board setup) (calls_of input.now) }
{
    let mut board = Arrays::empty();
    let mut numbers = [0; EVENTS];
    let count = event_count(input);
    run_events(&mut board, setup, input, 0, count, &mut numbers);
    board_of(&board, setup)
}

// Whether the file is well formed, the bytes ask for something, and a slice of so many numbers has room.
fn may_call(input: &[u8], event: &[u8], room: usize) -> bool
    ensures { result ≡ may_call input.now event.now room }
{
    well_formed(input) && is_request(event) && FILLED <= room
}

// The board that the file leaves, with the number at `place` of its row replaced by `value`, takes the call that `event` asks for: the answer is the
// number of the refusal, 0 if it was accepted. NO_COUNT, and both slices as they were, if the file or its start is refused, the ten bytes ask for
// nothing, or `board` has no room.
pub fn call_changed(
    input: &[u8],
    place: u64,
    value: u64,
    event: &[u8],
    limit: u64,
    figures: &mut [i64],
    board: &mut [u64],
) -> u64
    ensures value { result ≡ (call_changed input.now place value event.now limit figures.old board.old).number }
    ensures figures_after { figures.new ≡ (call_changed input.now place value event.now limit figures.old board.old).figures }
    ensures board_after { board.new ≡ (call_changed input.now place value event.now limit figures.old board.old).board }
{
    if !may_call(input, event, board.len()) {
        return NO_COUNT;
    }
    let setup = setup_of(input);
    let Ok(()) = start_fits(setup.n, setup.f, setup.matrix) else {
        return NO_COUNT;
    };
    let left = board_after(input, setup);
    let before = changed(left, place as usize, value);
    let request = request_of(event);
    hand_back(before, request, limit, figures, board)
}
