// A board as a row of numbers: every number of Board in the order of its fields. A test changes one of them, and compares what a call leaves.
// Rests on its modules reading and writing, on machine, flight, site, posting and sets.
#![tactic(auto)]

ghost use Rattle.std.specs.Prelude.{◌≡◌, cond, ltb};
ghost use Rattle.image.specs.Layout.{image_long};
ghost use Rattle.image.specs.Image.{changed};

use crate::reading::board_from;
use crate::writing::write_image;
use flight::{LOADS, MASKS, PAIRS};
use machine::Board;
use sets::{POSTINGS, WORDS};
use site::SITES;

mod numbers;
pub mod reading;
pub mod writing;

// ---- how many numbers: of a row of the table, of a record, of a site, of a tally

pub const ROW: usize = 5;

pub const RECORD: usize = 1 + POSTINGS;

pub const SITE: usize = 5 * WORDS + 2 * POSTINGS + 1 + RECORD;

pub const TALLY: usize = 2 + WORDS;

// ---- where each part stands; the setup is first

pub const DOWN_AT: usize = 3;

pub const COUNT_AT: usize = DOWN_AT + 1;

pub const ROWS_AT: usize = COUNT_AT + 1;

pub const SITES_AT: usize = ROWS_AT + POSTINGS * ROW;

pub const TALLIES_AT: usize = SITES_AT + SITES * SITE;

pub const MASKS_AT: usize = TALLIES_AT + POSTINGS * TALLY;

pub const GOOD_AT: usize = MASKS_AT + MASKS;

pub const CARRIED_AT: usize = GOOD_AT + PAIRS;

pub const POOL_AT: usize = CARRIED_AT + LOADS;

pub const ENTRIES_AT: usize = POOL_AT + WORDS;

pub const LOG_AT: usize = ENTRIES_AT + POSTINGS * WORDS;

// How many numbers a board has.
pub const IMAGE: usize = LOG_AT + RECORD;

// The board with the number at a place changed, modulo the width of its field; past the last place, as it is.
pub fn changed(board: Board, place: usize, value: u64) -> Board
    ensures { result ≡ cond (ltb place image_long) (changed board place value) board }
{
    if IMAGE <= place {
        return board;
    }
    let mut image = [0; IMAGE];
    write_image(board, &mut image);
    image[place] = value;
    board_from(&image)
}
