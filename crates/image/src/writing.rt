// A board written as a row of numbers, part by part, each at its place.
// Rests on the places of lib, on machine, flight, site, posting and sets.
ghost use Rattle.std.specs.Prelude.{◌+◌, ◌≤◌, ◌≡◌, [], ◌∷◌, ◌++◌, length, set};
ghost use Rattle.std.proofs.lemmas.List.Edits.{sets};
ghost use Rattle.sets.specs.Sets.{words, capacity};
ghost use Rattle.posting.specs.Conflicts.{no_posting};
ghost use Rattle.site.specs.Sites.{sites, no_set, no_site, no_tally};
ghost use Rattle.image.specs.Layout.{row_long, record_long, site_long, tally_long, count_at, rows_at, sites_at, tallies_at, masks_at, entries_at, image_long};
ghost use Rattle.image.specs.Image.{setup_numbers, set_numbers, row_numbers, record_numbers, site_numbers, tally_numbers, flight_numbers, image_of};
ghost use Rattle.image.specs.Stored.{stored};

use crate::{
    CARRIED_AT, COUNT_AT, DOWN_AT, ENTRIES_AT, GOOD_AT, IMAGE, LOG_AT, MASKS_AT, POOL_AT, ROW,
    ROWS_AT, SITE, SITES_AT, TALLIES_AT, TALLY,
};
use flight::Flight;
use machine::Board;
use posting::{Posting, Record, Table};
use sets::{POSTINGS, Set, WORDS};
use site::{SITES, Setup, Site, Tally};

// ---- arrays of numbers

fn put_bytes(out: &mut [u64; IMAGE], at: usize, values: &[u8])
    requires { at + length values.now ≤ image_long }
    ensures { out.new ≡ sets out.old at values.now }
{
    for k in 0..values.len() {
        out[at + k] = values[k] as u64;
    }
}

fn put_words(out: &mut [u64; IMAGE], at: usize, values: &[u64])
    requires { at + length values.now ≤ image_long }
    ensures { out.new ≡ sets out.old at values.now }
{
    for k in 0..values.len() {
        out[at + k] = values[k];
    }
}

// A byte for each posting.
fn put_column(out: &mut [u64; IMAGE], at: usize, values: [u8; POSTINGS])
    requires { at + capacity ≤ image_long }
    ensures { out.new ≡ sets out.old at values }
{
    put_bytes(out, at, &values[..]);
}

// ---- structs

fn put_set(out: &mut [u64; IMAGE], at: usize, s: Set)
    requires { at + words ≤ image_long }
    ensures { out.new ≡ sets out.old at (set_numbers s) }
{
    let values = s.words;
    put_words(out, at, &values[..]);
}

fn put_record(out: &mut [u64; IMAGE], at: usize, delivered: Record)
    requires { at + record_long ≤ image_long }
    ensures { out.new ≡ sets out.old at (record_numbers delivered) }
{
    let numbers = delivered.numbers;
    out[at] = delivered.count as u64;
    put_column(out, at + 1, numbers);
}

fn put_row(out: &mut [u64; IMAGE], at: usize, row: Posting)
    requires { at + row_long ≤ image_long }
    ensures { out.new ≡ sets out.old at (row_numbers row) }
{
    out[at] = row.owner as u64;
    out[at + 1] = row.kind as u64;
    out[at + 2] = row.a as u64;
    out[at + 3] = row.b as u64;
    out[at + 4] = row.amount as u64;
}

fn put_table(out: &mut [u64; IMAGE], table: Table)
    ensures { out.new ≡ stored row_numbers rows_at row_long table.rows no_posting (set out.old count_at table.count) capacity }
{
    let rows = table.rows;
    out[COUNT_AT] = table.count as u64;
    for m in 0..POSTINGS {
        let row = rows[m];
        put_row(out, ROWS_AT + m * ROW, row);
    }
}

fn put_site(out: &mut [u64; IMAGE], at: usize, s: Site)
    requires { at + site_long ≤ image_long }
    ensures { out.new ≡ sets out.old at (site_numbers s) }
{
    let heard = s.heard;
    let good = s.good;
    put_set(out, at, s.seen);
    put_set(out, at + WORDS, s.held);
    put_set(out, at + 2 * WORDS, s.stepped);
    put_set(out, at + 3 * WORDS, s.finished);
    put_set(out, at + 4 * WORDS, s.got);
    put_column(out, at + 5 * WORDS, heard);
    put_column(out, at + 5 * WORDS + POSTINGS, good);
    out[at + 5 * WORDS + 2 * POSTINGS] = s.place as u64;
    put_record(out, at + 5 * WORDS + 2 * POSTINGS + 1, s.delivered);
}

fn put_sites(out: &mut [u64; IMAGE], all: [Site; SITES])
    ensures { out.new ≡ stored site_numbers sites_at site_long all no_site out.old sites }
{
    for p in 0..SITES {
        let s = all[p];
        put_site(out, SITES_AT + p * SITE, s);
    }
}

fn put_tally(out: &mut [u64; IMAGE], at: usize, tally: Tally)
    requires { at + tally_long ≤ image_long }
    ensures { out.new ≡ sets out.old at (tally_numbers tally) }
{
    out[at] = tally.heard as u64;
    out[at + 1] = tally.has as u64;
    put_set(out, at + 2, tally.union);
}

fn put_tallies(out: &mut [u64; IMAGE], all: [Tally; POSTINGS])
    ensures { out.new ≡ stored tally_numbers tallies_at tally_long all no_tally out.old capacity }
{
    for m in 0..POSTINGS {
        let tally = all[m];
        put_tally(out, TALLIES_AT + m * TALLY, tally);
    }
}

fn put_flight(out: &mut [u64; IMAGE], flight: Flight)
    ensures { out.new ≡ sets out.old masks_at (flight_numbers flight) }
{
    let masks = flight.masks;
    let good = flight.good;
    let carried = flight.carried;
    put_bytes(out, MASKS_AT, &masks[..]);
    put_bytes(out, GOOD_AT, &good[..]);
    put_words(out, CARRIED_AT, &carried[..]);
}

fn put_entries(out: &mut [u64; IMAGE], all: [Set; POSTINGS])
    ensures { out.new ≡ stored set_numbers entries_at words all no_set out.old capacity }
{
    for m in 0..POSTINGS {
        let entry = all[m];
        put_set(out, ENTRIES_AT + m * WORDS, entry);
    }
}

// The setup, and who is down. The row is lent as a slice, so that the checker tells its length to the caller.
fn put_setup(out: &mut [u64], setup: Setup, down: u8)
    requires { count_at ≤ length out.old }
    ensures { out.new ≡ sets out.old 0 (setup_numbers setup ++ (down ∷ [])) }
{
    out[0] = setup.n as u64;
    out[1] = setup.f as u64;
    out[2] = setup.matrix as u64;
    out[DOWN_AT] = down as u64;
}

// ---- all of it

pub fn write_image(board: Board, out: &mut [u64; IMAGE])
    ensures { out.new ≡ image_of board }
{
    let all = board.sites;
    let tallies = board.tallies;
    let entries = board.entries;
    put_setup(&mut out[..], board.setup, board.down);
    put_table(out, board.table);
    put_sites(out, all);
    put_tallies(out, tallies);
    put_flight(out, board.flight);
    put_set(out, POOL_AT, board.pool);
    put_entries(out, entries);
    put_record(out, LOG_AT, board.log);
}
