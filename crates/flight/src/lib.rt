// What is in flight: for each form, posting and sender the receivers, and the loads of SECONDs and THIRDs.
// Rests on site, posting and sets. Each function is over one array, lent where it lies, and answers for all arguments: what is out of range
// is not in flight.
#![tactic(auto)]

ghost use Rattle.std.specs.Prelude.{◌≡◌, take};
ghost use Rattle.flight.specs.Flights.{cells, pair_at, cell_at, set_in, nothing_comes, empty_flight};

use sets::{POSTINGS, Set, WORDS};
use site::SITES;

// Document 01's forms: FIRST, SECOND, THIRD, DELIVER.
pub const FORMS: usize = 4;

pub const THIRD: usize = site::THIRD as usize;

// Places in the arrays: by posting and sender; by form, posting and sender; by posting, sender and word.
pub const PAIRS: usize = POSTINGS * SITES;

pub const MASKS: usize = FORMS * PAIRS;

pub const LOADS: usize = PAIRS * WORDS;

// Receivers by form, posting and sender; of a SECOND, those to whom it says GOOD, by posting and sender;
// of a THIRD, the words of its carried set, by posting, sender and word.
#[derive(Clone, Copy)]
pub struct Flight {
    pub masks: [u8; MASKS],
    pub good: [u8; PAIRS],
    pub carried: [u64; LOADS],
}

// A message in flight.
#[derive(Clone, Copy)]
pub struct Message {
    pub form: usize,
    pub posting: usize,
    pub from: usize,
    pub to: usize,
}

impl Flight {
    // Nothing in flight.
    pub fn empty() -> Flight
        ensures { result ≡ empty_flight }
    {
        Flight {
            masks: [0; MASKS],
            good: [0; PAIRS],
            carried: [0; LOADS],
        }
    }
}

// ---- places

// The place of a posting and sender; the number past the last if there is none.
fn pair(m: usize, from: usize) -> usize
    ensures { result ≡ pair_at m from }
{
    if POSTINGS <= m {
        return PAIRS;
    }
    if SITES <= from {
        return PAIRS;
    }
    m * SITES + from
}

// The place of a form, posting and sender; the number past the last if there is none.
pub fn cell(form: usize, m: usize, from: usize) -> usize
    ensures { result ≡ cell_at form m from }
{
    let i = pair(m, from);
    if FORMS <= form {
        return MASKS;
    }
    if PAIRS <= i {
        return MASKS;
    }
    form * PAIRS + i
}

// ---- what is in flight

// The set that the THIRD of m carries.
pub fn carried_set(carried: &[u64; LOADS], m: usize, from: usize) -> Set
    ensures { result ≡ set_in carried.now m from }
{
    let mut load = Set::empty();
    let i = pair(m, from);
    if PAIRS <= i {
        return load;
    }
    for k in 0..WORDS {
        load.words[k] = carried[WORDS * i + k];
    }
    load
}

// Whether nothing in flight is for a site of the mask. All cells are joined, with no test for each, so that the compiler takes many at a time.
pub fn nothing_comes(masks: &[u8; MASKS], up: u8) -> bool
    ensures { result ≡ nothing_comes (take cells masks.now) up }
{
    let mut any: u8 = 0;
    for k in 0..MASKS {
        any = any | (masks[k] & up);
    }
    any == 0
}
