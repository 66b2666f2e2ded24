// What a board has, laid out on flat arrays, array by array.
// Rests on arrays and index, on site, posting and sets.
#![tactic(auto)]

ghost use Rattle.std.specs.Prelude.{◌+◌, ◌<◌, ◌≤◌, ◌≡◌};
ghost use Rattle.std.proofs.lemmas.List.Edits.{sets};
ghost use Rattle.sets.specs.Sets.{capacity};
ghost use Rattle.site.specs.Sites.{sites};
ghost use Rattle.arrays.specs.Layout.{bytes_long};
ghost use Rattle.layout.specs.Laying.{record_set, site_sets, posting_sets, sites_sets, have_sets, postings_sets, indexed_to, Ranged, laying_sets, site_counts, laying_counts, site_bytes, posting_bytes, sites_bytes, postings_bytes, laying_bytes, laying_amounts};

use arrays::{
    BYTES, COUNTS, DELIVERED, DOWN, ENTRY, FINISHED, FROM, GOOD, GOT, HAS, HAVE, HEARD, HELD, INTO,
    KIND, LOG, LOGGED, OFFERED, OWNER, PLACE, POOL, RECORD, SEEN, SETS, STEPPED, TALLIED, UNION,
    store,
};
use index::enter;
use posting::{Posting, Record, Table};
use sets::{POSTINGS, Set};
use site::{SITES, Site, Tally};

// ---- sets

// The postings of a record, as a set.
fn record_set(delivered: Record) -> Set
    ensures { result ≡ record_set delivered }
{
    let count = delivered.count;
    let mut all = Set::empty();
    for i in 0..POSTINGS {
        if count <= i {
            return all;
        }
        let m = delivered.numbers[i] as usize;
        all = all.with(m);
    }
    all
}

// The sets of site p.
fn site_sets(words: &mut [u64; SETS], p: usize, s: Site)
    requires { p < sites }
    ensures { words.new ≡ site_sets words.old p s }
{
    let seen = s.seen;
    let held = s.held;
    let stepped = s.stepped;
    let finished = s.finished;
    let got = s.got;
    store(words, SEEN + p, seen);
    store(words, HELD + p, held);
    store(words, STEPPED + p, stepped);
    store(words, FINISHED + p, finished);
    store(words, GOT + p, got);
}

// Those of all sites.
fn sites_sets(words: &mut [u64; SETS], all: [Site; SITES])
    ensures { words.new ≡ sites_sets words.old all sites }
{
    for p in 0..SITES {
        let s = all[p];
        site_sets(words, p, s);
    }
}

// What each record has.
fn have_sets(words: &mut [u64; SETS], all: [Site; SITES])
    ensures { words.new ≡ have_sets words.old all sites }
{
    for p in 0..SITES {
        let s = all[p];
        let delivered = s.delivered;
        let have = record_set(delivered);
        store(words, HAVE + p, have);
    }
}

// The union of posting m's tally, and its entry.
fn posting_sets(words: &mut [u64; SETS], m: usize, union: Set, entry: Set)
    requires { m < capacity }
    ensures { words.new ≡ posting_sets words.old m union entry }
{
    store(words, UNION + m, union);
    store(words, ENTRY + m, entry);
}

// Those of all postings.
fn postings_sets(words: &mut [u64; SETS], tallies: [Tally; POSTINGS], entries: [Set; POSTINGS])
    ensures { words.new ≡ postings_sets words.old tallies entries capacity }
{
    for m in 0..POSTINGS {
        let t = tallies[m];
        let union = t.union;
        let entry = entries[m];
        posting_sets(words, m, union, entry);
    }
}

// The postings offered, in the index.
fn index_rows(words: &mut [u64; SETS], table: Table)
    requires { Ranged table }
    ensures { words.new ≡ indexed_to words.old table table.count }
{
    let count = table.count;
    let rows = table.rows;
    for m in 0..count {
        let row = rows[m];
        enter(words, m, row.kind, row.a, row.b);
    }
}

// All sets.
pub fn lay_sets(
    words: &mut [u64; SETS],
    table: Table,
    all: [Site; SITES],
    tallies: [Tally; POSTINGS],
    pool: Set,
    entries: [Set; POSTINGS],
)
    requires { Ranged table }
    ensures { words.new ≡ laying_sets words.old table all tallies pool entries }
{
    sites_sets(words, all);
    have_sets(words, all);
    postings_sets(words, tallies, entries);
    store(words, POOL, pool);
    index_rows(words, table);
}

// ---- counts

// The log place of site p, and how many postings its record has.
fn site_counts(counts: &mut [usize; COUNTS], p: usize, place: usize, delivered: usize)
    requires { p < sites }
    ensures { counts.new ≡ site_counts counts.old p place delivered }
{
    counts[PLACE + p] = place;
    counts[DELIVERED + p] = delivered;
}

// All counts.
pub fn lay_counts(counts: &mut [usize; COUNTS], count: usize, logged: usize, all: [Site; SITES])
    ensures { counts.new ≡ laying_counts counts.old count logged all }
{
    counts[OFFERED] = count;
    counts[LOGGED] = logged;
    for p in 0..SITES {
        let s = all[p];
        let delivered = s.delivered;
        site_counts(counts, p, s.place, delivered.count);
    }
}

// ---- bytes

// A byte for each posting, to a place.
fn paste(bytes: &mut [u8; BYTES], at: usize, values: [u8; POSTINGS])
    requires { at + capacity ≤ bytes_long }
    ensures { bytes.new ≡ sets bytes.old at values }
{
    for k in 0..POSTINGS {
        bytes[at + k] = values[k];
    }
}

// What site p has heard, and its record.
fn site_bytes(bytes: &mut [u8; BYTES], p: usize, s: Site)
    requires { p < sites }
    ensures { bytes.new ≡ site_bytes bytes.old p s }
{
    let heard = s.heard;
    let good = s.good;
    let delivered = s.delivered;
    let numbers = delivered.numbers;
    paste(bytes, HEARD + p * POSTINGS, heard);
    paste(bytes, GOOD + p * POSTINGS, good);
    paste(bytes, RECORD + p * POSTINGS, numbers);
}

// Those of all sites.
fn sites_bytes(bytes: &mut [u8; BYTES], all: [Site; SITES])
    ensures { bytes.new ≡ sites_bytes bytes.old all sites }
{
    for p in 0..SITES {
        let s = all[p];
        site_bytes(bytes, p, s);
    }
}

// The row of posting m but for the amount, and the masks of its tally.
fn posting_bytes(bytes: &mut [u8; BYTES], m: usize, row: Posting, t: Tally)
    requires { m < capacity }
    ensures { bytes.new ≡ posting_bytes bytes.old m row t }
{
    bytes[OWNER + m] = row.owner;
    bytes[KIND + m] = row.kind;
    bytes[FROM + m] = row.a;
    bytes[INTO + m] = row.b;
    bytes[TALLIED + m] = t.heard;
    bytes[HAS + m] = t.has;
}

// Those of all postings.
fn postings_bytes(bytes: &mut [u8; BYTES], rows: [Posting; POSTINGS], tallies: [Tally; POSTINGS])
    ensures { bytes.new ≡ postings_bytes bytes.old rows tallies capacity }
{
    for m in 0..POSTINGS {
        let row = rows[m];
        let t = tallies[m];
        posting_bytes(bytes, m, row, t);
    }
}

// All bytes.
pub fn lay_bytes(
    bytes: &mut [u8; BYTES],
    down: u8,
    rows: [Posting; POSTINGS],
    all: [Site; SITES],
    tallies: [Tally; POSTINGS],
    log: [u8; POSTINGS],
)
    ensures { bytes.new ≡ laying_bytes bytes.old down rows all tallies log }
{
    bytes[DOWN] = down;
    paste(bytes, LOG, log);
    postings_bytes(bytes, rows, tallies);
    sites_bytes(bytes, all);
}

// ---- amounts

// The amounts of all postings.
pub fn lay_amounts(amounts: &mut [u32; POSTINGS], rows: [Posting; POSTINGS])
    ensures { amounts.new ≡ laying_amounts amounts.old rows capacity }
{
    for m in 0..POSTINGS {
        let row = rows[m];
        amounts[m] = row.amount;
    }
}

// ---- all of it
