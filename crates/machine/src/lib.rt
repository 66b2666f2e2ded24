// The board: n sites, what is in flight, the pool and the log; the calls that a board takes, and what they answer.
// Rests on flight, site, books, posting and sets.
#![tactic(auto)]

use flight::Flight;
use posting::{Record, Table};
use sets::{POSTINGS, Set};
use site::{SITES, Setup, Site, Tally};

pub mod laying;
pub mod service;
pub mod sound;
pub mod taking;

#[derive(Clone, Copy)]
pub struct Board {
    pub setup: Setup,
    // the sites that are down
    pub down: u8,
    pub table: Table,
    pub sites: [Site; SITES],
    // the third round of each posting, at its owner
    pub tallies: [Tally; POSTINGS],
    pub flight: Flight,
    // the postings whose entry is in the pool
    pub pool: Set,
    // the set of a posting's entry, in pool or log
    pub entries: [Set; POSTINGS],
    // the postings of the log's entries, in order
    pub log: Record,
}

// What a call answers: done; an offer's number; or document 01's number of the refusal.
#[derive(Drop)]
pub enum Answer {
    Done,
    Offered(usize),
    Refused(u8),
}

// The board that a call hands back, and its answer.
#[derive(Drop)]
pub struct Outcome {
    pub board: Board,
    pub answer: Answer,
}
