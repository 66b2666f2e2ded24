// A board read off a row of numbers, part by part, each from its place and modulo the width of its field.
// Rests on numbers and the places of lib, on machine, flight, site, posting and sets.
ghost use Rattle.std.specs.Prelude.{◌+◌, ◌*◌, ◌≤◌, ◌≡◌};
ghost use Rattle.sets.specs.Sets.{words, capacity};
ghost use Rattle.books.specs.Books.{tabulate};
ghost use Rattle.site.specs.Sites.{sites};
ghost use Rattle.image.specs.Layout.{row_long, record_long, site_long, tally_long, sites_at, tallies_at, entries_at, image_long};
ghost use Rattle.image.specs.Image.{setup_from, set_from, row_from, record_from, site_from, tally_from, table_from, flight_from, board_from};

use crate::numbers::{bytes_from, count, words_from};
use crate::{
    CARRIED_AT, COUNT_AT, DOWN_AT, ENTRIES_AT, GOOD_AT, IMAGE, LOG_AT, MASKS_AT, POOL_AT, ROW,
    ROWS_AT, SITE, SITES_AT, TALLIES_AT, TALLY,
};
use flight::Flight;
use machine::Board;
use posting::{Posting, Record, Table};
use sets::{POSTINGS, Set, WORDS};
use site::{SITES, Setup, Site, Tally};

// ---- structs

fn setup_from(image: &[u64; IMAGE]) -> Setup
    ensures { result ≡ setup_from image.now 0 }
{
    Setup {
        n: (image[0] % 256) as u8,
        f: (image[1] % 256) as u8,
        matrix: (image[2] % 65536) as u16,
    }
}

fn set_from(image: &[u64; IMAGE], at: usize) -> Set
    requires { at + words ≤ image_long }
    ensures { result ≡ set_from image.now at }
{
    Set {
        words: words_from(image, at),
    }
}

fn record_from(image: &[u64; IMAGE], at: usize) -> Record
    requires { at + record_long ≤ image_long }
    ensures { result ≡ record_from image.now at }
{
    Record {
        count: count(image, at),
        numbers: bytes_from(image, at + 1),
    }
}

fn row_from(image: &[u64; IMAGE], at: usize) -> Posting
    requires { at + row_long ≤ image_long }
    ensures { result ≡ row_from image.now at }
{
    Posting {
        owner: (image[at] % 256) as u8,
        kind: (image[at + 1] % 256) as u8,
        a: (image[at + 2] % 256) as u8,
        b: (image[at + 3] % 256) as u8,
        amount: (image[at + 4] % 4294967296) as u32,
    }
}

fn table_from(image: &[u64; IMAGE]) -> Table
    ensures { result ≡ table_from image.now }
{
    let mut rows = [row_from(image, ROWS_AT); POSTINGS];
    for m in 0..POSTINGS {
        rows[m] = row_from(image, ROWS_AT + m * ROW);
    }
    Table {
        count: count(image, COUNT_AT),
        rows,
    }
}

fn site_from(image: &[u64; IMAGE], at: usize) -> Site
    requires { at + site_long ≤ image_long }
    ensures { result ≡ site_from image.now at }
{
    let rest = at + 5 * WORDS;
    Site {
        seen: set_from(image, at),
        held: set_from(image, at + WORDS),
        stepped: set_from(image, at + 2 * WORDS),
        finished: set_from(image, at + 3 * WORDS),
        got: set_from(image, at + 4 * WORDS),
        heard: bytes_from(image, rest),
        good: bytes_from(image, rest + POSTINGS),
        place: count(image, rest + 2 * POSTINGS),
        delivered: record_from(image, rest + 2 * POSTINGS + 1),
    }
}

fn sites_from(image: &[u64; IMAGE]) -> [Site; SITES]
    ensures { result ≡ tabulate sites (λ p. site_from image.now (sites_at + p * site_long)) }
{
    let mut all = [site_from(image, SITES_AT); SITES];
    for p in 0..SITES {
        all[p] = site_from(image, SITES_AT + p * SITE);
    }
    all
}

fn tally_from(image: &[u64; IMAGE], at: usize) -> Tally
    requires { at + tally_long ≤ image_long }
    ensures { result ≡ tally_from image.now at }
{
    Tally {
        heard: (image[at] % 256) as u8,
        has: (image[at + 1] % 256) as u8,
        union: set_from(image, at + 2),
    }
}

fn tallies_from(image: &[u64; IMAGE]) -> [Tally; POSTINGS]
    ensures { result ≡ tabulate capacity (λ m. tally_from image.now (tallies_at + m * tally_long)) }
{
    let mut all = [tally_from(image, TALLIES_AT); POSTINGS];
    for m in 0..POSTINGS {
        all[m] = tally_from(image, TALLIES_AT + m * TALLY);
    }
    all
}

fn entries_from(image: &[u64; IMAGE]) -> [Set; POSTINGS]
    ensures { result ≡ tabulate capacity (λ m. set_from image.now (entries_at + m * words)) }
{
    let mut all = [set_from(image, ENTRIES_AT); POSTINGS];
    for m in 0..POSTINGS {
        all[m] = set_from(image, ENTRIES_AT + m * WORDS);
    }
    all
}

fn flight_from(image: &[u64; IMAGE]) -> Flight
    ensures { result ≡ flight_from image.now }
{
    Flight {
        masks: bytes_from(image, MASKS_AT),
        good: bytes_from(image, GOOD_AT),
        carried: words_from(image, CARRIED_AT),
    }
}

// ---- all of it

pub fn board_from(image: &[u64; IMAGE]) -> Board
    ensures { result ≡ board_from image.now }
{
    Board {
        setup: setup_from(image),
        down: (image[DOWN_AT] % 256) as u8,
        table: table_from(image),
        sites: sites_from(image),
        tallies: tallies_from(image),
        flight: flight_from(image),
        pool: set_from(image, POOL_AT),
        entries: entries_from(image),
        log: record_from(image, LOG_AT),
    }
}
