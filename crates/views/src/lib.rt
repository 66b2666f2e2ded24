// What the flat arrays show of a board, taken off them: sites, tallies, rows, entries, the log.
// Rests on arrays and books.
#![tactic(auto)]

ghost use Rattle.std.specs.Prelude.{◌+◌, ◌<◌, ◌≤◌, ◌≡◌};
ghost use Rattle.sets.specs.Sets.{capacity};
ghost use Rattle.books.specs.Books.{tabulate};
ghost use Rattle.site.specs.Sites.{sites};
ghost use Rattle.flight.specs.Flights.{words_from};
ghost use Rattle.arrays.specs.Layout.{bytes_long, entry_of};
ghost use Rattle.arrays.specs.Arrays.{slot_set};
ghost use Rattle.views.specs.Views.{record_in, site_of, tally_of, row_of, table_of, log_of};

use arrays::{
    Arrays, BYTES, DELIVERED, ENTRY, FINISHED, FROM, GOOD, GOT, HAS, HEARD, HELD, INTO, KIND, LOG,
    LOGGED, OFFERED, OWNER, PLACE, RECORD, SEEN, STEPPED, TALLIED, UNION, load,
};
use posting::{Posting, Record, Table};
use sets::{POSTINGS, Set};
use site::{SITES, Site, Tally};

// A byte for each posting, from a place on.
fn column(bytes: &[u8; BYTES], at: usize) -> [u8; POSTINGS]
    requires { at + capacity ≤ bytes_long }
    ensures { result ≡ words_from bytes.now at capacity }
{
    let mut a = [0; POSTINGS];
    for k in 0..POSTINGS {
        a[k] = bytes[at + k];
    }
    a
}

// The record of site p.
pub fn record_of(board: &Arrays, p: usize) -> Record
    requires { p < sites }
    ensures { result ≡ record_in board.now p }
{
    Record {
        count: board.counts[DELIVERED + p],
        numbers: column(&board.bytes, RECORD + p * POSTINGS),
    }
}

// What belongs to site p.
pub fn site_of(board: &Arrays, p: usize) -> Site
    requires { p < sites }
    ensures { result ≡ site_of board.now p }
{
    Site {
        seen: load(&board.sets, SEEN + p),
        held: load(&board.sets, HELD + p),
        stepped: load(&board.sets, STEPPED + p),
        finished: load(&board.sets, FINISHED + p),
        got: load(&board.sets, GOT + p),
        heard: column(&board.bytes, HEARD + p * POSTINGS),
        good: column(&board.bytes, GOOD + p * POSTINGS),
        place: board.counts[PLACE + p],
        delivered: record_of(board, p),
    }
}

// All sites.
pub fn sites_of(board: &Arrays) -> [Site; SITES]
    ensures { result ≡ tabulate sites (site_of board.now) }
{
    let mut all = [site_of(board, 0); SITES];
    for p in 0..SITES {
        all[p] = site_of(board, p);
    }
    all
}

// The tally of posting m.
pub fn tally_of(board: &Arrays, m: usize) -> Tally
    requires { m < capacity }
    ensures { result ≡ tally_of board.now m }
{
    Tally {
        heard: board.bytes[TALLIED + m],
        has: board.bytes[HAS + m],
        union: load(&board.sets, UNION + m),
    }
}

// The tallies of all postings.
pub fn tallies_of(board: &Arrays) -> [Tally; POSTINGS]
    ensures { result ≡ tabulate capacity (tally_of board.now) }
{
    let mut all = [tally_of(board, 0); POSTINGS];
    for m in 0..POSTINGS {
        all[m] = tally_of(board, m);
    }
    all
}

// The entry of each posting.
pub fn entries_of(board: &Arrays) -> [Set; POSTINGS]
    ensures { result ≡ tabulate capacity (λ m. slot_set board.now.sets (entry_of m)) }
{
    let mut all = [load(&board.sets, ENTRY); POSTINGS];
    for m in 0..POSTINGS {
        all[m] = load(&board.sets, ENTRY + m);
    }
    all
}

// The row of posting m.
pub fn row_of(board: &Arrays, m: usize) -> Posting
    requires { m < capacity }
    ensures { result ≡ row_of board.now m }
{
    Posting {
        owner: board.bytes[OWNER + m],
        kind: board.bytes[KIND + m],
        a: board.bytes[FROM + m],
        b: board.bytes[INTO + m],
        amount: board.amounts[m],
    }
}

// The table.
pub fn table_of(board: &Arrays) -> Table
    ensures { result ≡ table_of board.now }
{
    let mut rows = [row_of(board, 0); POSTINGS];
    for m in 0..POSTINGS {
        rows[m] = row_of(board, m);
    }
    Table {
        count: board.counts[OFFERED],
        rows,
    }
}

// The log.
pub fn log_of(board: &Arrays) -> Record
    ensures { result ≡ log_of board.now }
{
    Record {
        count: board.counts[LOGGED],
        numbers: column(&board.bytes, LOG),
    }
}
