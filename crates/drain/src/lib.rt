// Drain: events, uncut, until the board is quiet or the limit is used up; on a board at work, and on a board by value.
// Rests on next, on whole_board and invariants.
#![tactic(auto)]

ghost use Rattle.std.specs.Prelude.{◌≡◌, true, false};
ghost use Rattle.machine.specs.Soundness.{is_sound};
ghost use Rattle.machine.specs.View.{view, Right};
ghost use Rattle.invariants.proofs.Reached.{GoodIf};
ghost use Rattle.drain.specs.Drain.{ending_of, draining, drained};

use arrays::{Arrays, DOWN, OFFERED};
use calls::{order, read};
use events::receipts::receive;
use flight::{FORMS, MASKS, Message, PAIRS};
use machine::Board;
use machine::laying::lay_out;
use machine::taking::board_of;
use masks::has_site;
use next::{floor_after, lowest_pooled, next_reader};
use sets::POSTINGS;
use site::{SITES, Setup};
use steps::{Cut, Receipt, Refusal};
use whole_board::quiet::up_mask;

pub mod next;

// How a drain ended: the board is quiet; the limit was used up and it is not; or the board was refused.
#[derive(Drop)]
pub enum Ending {
    Quiet,
    Spent,
    Refused(u8),
}

// The board that a drain hands back, its limit, the count of events done, and its ending.
#[derive(Drop)]
pub struct Drained {
    pub board: Board,
    pub limit: u64,
    pub count: u64,
    pub ending: Ending,
}

// What a drain on a board at work has done: the count of events, and its ending.
#[derive(Drop)]
pub struct Done {
    pub count: u64,
    pub ending: Ending,
}

// Drain, of a sound board at work. No cell below the floor has a message for a site that is up, so the search begins there, in the floor's form.
// What is in flight is of postings offered, so in each form it looks at their cells only, which come first and end at `end`.
pub fn drain_events(board: &mut Arrays, setup: Setup, limit: u64) -> Done
    requires { Right board.old × GoodIf false (view setup board.old) }
    ensures carried_after { view setup board.new ≡ (draining limit limit 0 (view setup board.old)).board }
    ensures count_value { result.count ≡ (draining limit limit 0 (view setup board.old)).count }
    ensures ending_value { result.ending ≡ (draining limit limit 0 (view setup board.old)).ending }
    ensures right { Right board.new }
    ensures ending_value_2 { ending_of result.ending ≡ ending_of (draining limit limit 0 (view setup board.old)).ending }
{
    let mut count: u64 = 0;
    let mut floor: usize = 0;
    let mut floor_form: usize = 0;
    let mut end = board.counts[OFFERED] * SITES;
    let ending = loop {
        let up = up_mask(setup.n, board.bytes[DOWN]);
        let mut found = None;
        let mut start = floor;
        'search: for form in floor_form..FORMS {
            for k in start..end {
                let w = board.masks[k] & up;
                if w == 0 {
                    continue;
                }
                for to in 0..SITES {
                    if has_site(w, to as u8) {
                        start = k;
                        found = Some(Message {
                            form,
                            posting: k / SITES % POSTINGS,
                            from: k % SITES,
                            to,
                        });
                        break 'search;
                    }
                }
            }
            start = (form + 1) * PAIRS;
            end += PAIRS;
        }
        match found {
            Some(message) => {
                if count == limit {
                    break Ending::Spent;
                }
                let receipt = Receipt {
                    posting: message.posting,
                    from: message.from,
                    to: message.to,
                    cut: Cut::Whole,
                };
                let _ = receive(board, setup, message.form, receipt);
                floor = floor_after(start, message.form, message.posting, message.to);
                floor_form = message.form;
                count += 1;
            }
            None => {
                floor = MASKS;
                floor_form = FORMS;
                let first = lowest_pooled(&board.sets);
                if first < POSTINGS {
                    if count == limit {
                        break Ending::Spent;
                    }
                    let _ = order(board, first);
                    count += 1;
                    continue;
                }
                let reader = next_reader(&board.counts, setup.n, board.bytes[DOWN]);
                if usize::from(setup.n) <= reader {
                    break Ending::Quiet;
                }
                if count == limit {
                    break Ending::Spent;
                }
                let _ = read(board, setup, reader, Cut::Whole);
                count += 1;
            }
        }
    };
    Done { count, ending }
}

// Drain, of a sound board by value: laid out on arrays, drained there, and taken off them.
fn drain_board(board: Board, limit: u64) -> Drained
    requires { is_sound board ≡ true }
    ensures { result ≡ draining limit limit 0 board }
{
    let setup = board.setup;
    let mut arrays = lay_out(board);
    let done = drain_events(&mut arrays, setup, limit);
    let after = board_of(&arrays, setup);
    Drained {
        board: after,
        limit,
        count: done.count,
        ending: done.ending,
    }
}

// Drain: an unsound board is refused, with nothing done.
pub fn drain(board: Board, limit: u64) -> Drained
    ensures value { result ≡ drained board limit }
    ensures ending_value { ending_of result.ending ≡ ending_of (drained board limit).ending }
{
    if board.is_sound() {
        return drain_board(board, limit);
    }
    Drained {
        board,
        limit,
        count: 0,
        ending: Ending::Refused(Refusal::Unsound.number()),
    }
}
