// The service's calls by value, from the bytes of a run file: a whole run, and one call of a board of which one number was changed.
// Rests on machine, opening, shown and drain for the calls, on decoder for files, on counted for answers, on image for a board as a row of numbers.
#![tactic(auto)]

use machine::Board;
use steps::Call;

pub mod changed;
pub mod run;

// What ten bytes ask of a board: an event, a drain, or the books of all sites.
#[derive(Drop)]
pub enum Request {
    Take(Call),
    Drain,
    Books,
}

// What a board answers a request with: the number of the refusal, 0 if it was accepted; the board handed back; and two values.
#[derive(Drop)]
pub struct Reply {
    pub number: u8,
    pub board: Board,
    pub first: u64,
    pub second: u64,
}
