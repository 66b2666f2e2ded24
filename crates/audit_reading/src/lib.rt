// The audit in one reading of the records: the first line that departs.
// Rests on posting for kinds and for what nets every account, and on audit_rule for what it means.
#![tactic(auto)]

ghost use Rattle.std.specs.Prelude.{◌≡◌, true, false, cond, ◌+◌, ◌*◌, ◌<◌, ◌≤◌, length, get_or, IsNone, MatchOption};
ghost use Rattle.audit_rule.specs.Reading.{row_in};
ghost use Rattle.audit_reading.specs.Sites.{Auditable, DepartureSays};
ghost use Rattle.audit_reading.specs.Kept.{fits_class, fits_classes, fits_line, bump, counted, lifted, reached, four_put, AtMost, places_after, seen_after, totals_after, ahead_after, fits_now, Readable, ReadSays};

use audit_rule::{Postings, Records};
use posting::{KINDS, net_of_all};

// Rows of classes: one for each account, and behind them that of all.
const EVERY_ROW: u8 = posting::ACCOUNTS;

const ROWS: u8 = EVERY_ROW + 1;

// Classes of postings: one kind in one row, number 4 row + kind.
const CLASSES: usize = 68;

// What is read of a line's posting: its kind, and the rows that it looks in.
#[derive(Clone, Copy)]
struct Line {
    kind: u8,
    a: u8,
    b: u8,
}

// What is kept of a record, class by class: how many of its lines, and their highest place.
#[derive(Drop)]
struct Tally {
    counts: [u32; CLASSES],
    highest: [u32; CLASSES],
}

// What is kept of all that was read: the last place given, and how many postings of each class.
#[derive(Drop)]
struct Notes {
    seen: u32,
    totals: [u32; CLASSES],
}

// Whether a line fits a class: as many of it above the line as stood ahead of it, and the highest of them ahead of it. A kind that does not conflict fits.
#[tactic(auto, unfolding(crate::specs::Kept::fits_class))]
fn fits_class(
    matrix: u16,
    kind: u8,
    j: u8,
    place: u32,
    c: usize,
    k: usize,
    tally: &Tally,
    ahead: &[u32],
) -> bool
    requires { (c < 68) × (k < length ahead.now) }
    ensures { result ≡ fits_class matrix kind j place (get_or tally.now.counts c 0) (get_or tally.now.highest c 0) (get_or ahead.now k 0) }
{
    !posting::matrix_entry(matrix, j, kind)
        || (tally.counts[c] == ahead[k] && tally.highest[c] < place)
}

// Whether a line fits the four classes of a row; what stood ahead of it begins at `at`.
fn fits(matrix: u16, kind: u8, row: u8, place: u32, at: usize, tally: &Tally, ahead: &[u32]) -> bool
    requires { (row < 17) × (at + 4 ≤ length ahead.now) }
    ensures { result ≡ fits_classes matrix kind row place at tally.now.counts tally.now.highest ahead.now }
{
    let base = 4 * usize::from(row);
    for j in 0..KINDS {
        let i = usize::from(j);
        if !fits_class(matrix, kind, j, place, base + i, at + i, tally, ahead) {
            return false;
        }
    }
    true
}

// Whether a line with posting y fits in the rows of both its accounts.
#[tactic(auto, unfolding(crate::specs::Kept::fits_line))]
fn fits_line(matrix: u16, line: Line, place: u32, y: usize, tally: &Tally, ahead: &[u32]) -> bool
    requires { (line.a < 17) × (line.b < 17) × (8 * y + 8 ≤ length ahead.now) }
    ensures { result ≡ fits_line matrix line.kind line.a line.b place y tally.now.counts tally.now.highest ahead.now }
{
    let Line { kind, a, b } = line;
    fits(matrix, kind, a, place, 8 * y, tally, ahead)
        && (a == b || fits(matrix, kind, b, place, 8 * y + 4, tally, ahead))
}

// One more of a class.
fn count_class(c: usize, numbers: &mut [u32; CLASSES])
    requires { (c < 68) × (get_or numbers.old c 0 < 4294967295) }
    ensures { numbers.new ≡ bump numbers.old c }
{
    numbers[c] += 1;
}

// A class's number becomes the place, if that is more.
fn lift_class(c: usize, place: u32, numbers: &mut [u32; CLASSES])
    requires { c < 68 }
    ensures { numbers.new ≡ lifted numbers.old c place }
{
    numbers[c] = numbers[c].max(place);
}

// One more of a kind in every row.
fn count_all(kind: u8, numbers: &mut [u32; CLASSES])
    requires { (kind < 4) × AtMost numbers.old 4294967293 }
    ensures { numbers.new ≡ counted numbers.old kind 16 16 }
{
    let k = usize::from(kind);
    for row in 0..ROWS {
        count_class(4 * usize::from(row) + k, numbers);
    }
}

// A posting is counted in its classes: its kind, in the rows of its accounts and in that of all. One that nets every account is in every row.
fn count_line(line: Line, numbers: &mut [u32; CLASSES])
    requires { (line.kind < 4) × (line.a < 17) × (line.b < 17) × (line.b ≡ 16 → line.a ≡ 16) × AtMost numbers.old 4294967293 }
    ensures { numbers.new ≡ counted numbers.old line.kind line.a line.b }
{
    let Line { kind, a, b } = line;
    if a == EVERY_ROW {
        count_all(kind, numbers);
        return;
    }
    let k = usize::from(kind);
    count_class(4 * usize::from(a) + k, numbers);
    count_class(4 * usize::from(EVERY_ROW) + k, numbers);
    if a == b {
        return;
    }
    count_class(4 * usize::from(b) + k, numbers);
}

// A place is the highest of a kind in every row, if no other is higher.
fn lift_all(kind: u8, place: u32, numbers: &mut [u32; CLASSES])
    requires { kind < 4 }
    ensures { numbers.new ≡ reached numbers.old kind 16 16 place }
{
    let k = usize::from(kind);
    for row in 0..ROWS {
        lift_class(4 * usize::from(row) + k, place, numbers);
    }
}

// A line of a class is counted, and its place is the highest of the class if no other is higher.
fn take_class(c: usize, place: u32, tally: &mut Tally)
    requires { (c < 68) × (get_or tally.old.counts c 0 < 4294967295) }
    ensures counts_after { tally.new.counts ≡ bump tally.old.counts c }
    ensures highest_after { tally.new.highest ≡ lifted tally.old.highest c place }
{
    count_class(c, &mut tally.counts);
    lift_class(c, place, &mut tally.highest);
}

// A line is taken into its record's counts and highest places. Both are changed class by class, so that where a class stands is worked out once.
fn take_line(line: Line, place: u32, tally: &mut Tally)
    requires { (line.kind < 4) × (line.a < 17) × (line.b < 17) × (line.b ≡ 16 → line.a ≡ 16) × AtMost tally.old.counts 4294967293 }
    ensures counts_after { tally.new.counts ≡ counted tally.old.counts line.kind line.a line.b }
    ensures highest_after { tally.new.highest ≡ reached tally.old.highest line.kind line.a line.b place }
{
    let Line { kind, a, b } = line;
    if a == EVERY_ROW {
        count_all(kind, &mut tally.counts);
        lift_all(kind, place, &mut tally.highest);
        return;
    }
    let k = usize::from(kind);
    take_class(4 * usize::from(a) + k, place, tally);
    take_class(4 * usize::from(EVERY_ROW) + k, place, tally);
    if a == b {
        return;
    }
    take_class(4 * usize::from(b) + k, place, tally);
}

// The four numbers of a row, as they stand ahead of a posting.
#[tactic(auto, unfolding(crate::specs::Kept::four_put))]
fn put_four(row: u8, at: usize, totals: &[u32; CLASSES], ahead: &mut [u32])
    requires { (row < 17) × (at + 4 ≤ length ahead.old) }
    ensures { ahead.new ≡ four_put (4 * row) at totals.now ahead.old }
{
    let c = 4 * usize::from(row);
    ahead[at] = totals[c];
    ahead[at + 1] = totals[c + 1];
    ahead[at + 2] = totals[c + 2];
    ahead[at + 3] = totals[c + 3];
}

// A posting is read. The first time it gets the next place, what stands ahead of it is put down, and it is counted.
fn note(y: usize, line: Line, notes: &mut Notes, places: &mut [u32], ahead: &mut [u32])
    requires { (line.kind < 4) × (line.a < 17) × (line.b < 17) × (line.b ≡ 16 → line.a ≡ 16) × (y < length places.old) × (8 * y + 8 ≤ length ahead.old) × (notes.old.seen < 4294967294) × AtMost notes.old.totals notes.old.seen }
    ensures seen_after { notes.new.seen ≡ seen_after places.old y notes.old.seen }
    ensures places_after { places.new ≡ places_after places.old y notes.old.seen }
    ensures totals_after { notes.new.totals ≡ totals_after places.old y line.kind line.a line.b notes.old.totals }
    ensures ahead_after { ahead.new ≡ ahead_after places.old y line.a line.b notes.old.totals ahead.old }
{
    if places[y] != 0 {
        return;
    }
    let place = notes.seen + 1;
    places[y] = place;
    notes.seen = place;
    put_four(line.a, 8 * y, &notes.totals, ahead);
    put_four(line.b, 8 * y + 4, &notes.totals, ahead);
    count_line(line, &mut notes.totals);
}

// One line: it is read, and tested; if it fits, it is counted above the next one. Handed back is whether it fits.
fn read_line(
    matrix: u16,
    y: usize,
    line: Line,
    tally: &mut Tally,
    notes: &mut Notes,
    places: &mut [u32],
    ahead: &mut [u32],
) -> bool
    requires { (line.kind < 4) × (line.a < 17) × (line.b < 17) × (line.b ≡ 16 → line.a ≡ 16) × (y < length places.old) × (8 * y + 8 ≤ length ahead.old) × (notes.old.seen < 4294967294) × AtMost notes.old.totals notes.old.seen × AtMost tally.old.counts 4294967293 }
    ensures value { result ≡ fits_now matrix y line.kind line.a line.b notes.old.seen tally.old.counts tally.old.highest notes.old.totals places.old ahead.old }
    ensures seen_after { notes.new.seen ≡ seen_after places.old y notes.old.seen }
    ensures places_after { places.new ≡ places_after places.old y notes.old.seen }
    ensures totals_after { notes.new.totals ≡ totals_after places.old y line.kind line.a line.b notes.old.totals }
    ensures ahead_after { ahead.new ≡ ahead_after places.old y line.a line.b notes.old.totals ahead.old }
    ensures counts_after { result ≡ true → tally.new.counts ≡ counted tally.old.counts line.kind line.a line.b }
    ensures highest_after { result ≡ true → tally.new.highest ≡ reached tally.old.highest line.kind line.a line.b (get_or (places_after places.old y notes.old.seen) y 0) }
{
    note(y, line, notes, places, ahead);
    let place = places[y];
    if !fits_line(matrix, line, place, y, tally, ahead) {
        return false;
    }
    take_line(line, place, tally);
    true
}

// What is read of a posting with accounts a and b.
#[tactic(auto, unfolding(audit_rule::specs::Reading::row_in))]
fn line_of(kind: u8, a: u8, b: u8) -> Line
    ensures { result ≡ record { kind = kind; a = row_in kind a b a; b = row_in kind a b b } }
{
    if net_of_all(kind, a, b) {
        Line {
            kind,
            a: EVERY_ROW,
            b: EVERY_ROW,
        }
    } else {
        Line { kind, a, b }
    }
}

// Reads a record, line by line, to its end or to the first line that does not fit, which is handed back.
fn read_record(
    matrix: u16,
    postings: Postings,
    lines: &[u16],
    notes: &mut Notes,
    places: &mut [u32],
    ahead: &mut [u32],
) -> Option<usize>
    requires { Readable postings.kinds.now postings.firsts.now postings.seconds.now lines.now places.old ahead.old notes.old.totals notes.old.seen }
    ensures seen_bound { IsNone result → (notes.new.seen ≤ notes.old.seen + length lines.now) × AtMost notes.new.totals notes.new.seen × (length notes.new.totals ≡ 68) }
    ensures read_says { MatchOption result
        (ReadSays matrix postings.entry.kinds.now postings.entry.firsts.now postings.entry.seconds.now lines.now
        places.old notes.old.seen notes.old.totals ahead.old true 0 places.new notes.new.seen notes.new.totals ahead.new)
        (λ line. ReadSays matrix postings.entry.kinds.now postings.entry.firsts.now postings.entry.seconds.now lines.now
        places.old notes.old.seen notes.old.totals ahead.old false line places.new notes.new.seen notes.new.totals ahead.new) }
{
    let mut tally = Tally {
        counts: [0; CLASSES],
        highest: [0; CLASSES],
    };
    for (i, x) in lines.iter().enumerate() {
        let y = usize::from(*x);
        let line = line_of(postings.kinds[y], postings.firsts[y], postings.seconds[y]);
        if !read_line(matrix, y, line, &mut tally, notes, places, ahead) {
            return Some(i);
        }
    }
    None
}

// A line that does not fit.
#[derive(Clone, Copy)]
pub struct Unfit {
    pub site: usize,
    pub line: usize,
}

// Reads the records of all sites, one after another: the first line that does not fit, if there is one.
pub fn departure(
    matrix: u16,
    postings: Postings,
    records: Records,
    places: &mut [u32],
    ahead: &mut [u32],
) -> Option<Unfit>
    requires { Auditable postings.kinds.now postings.firsts.now postings.seconds.now records.lines.now records.ends.now places.old ahead.old }
    ensures { MatchOption result
        (DepartureSays matrix postings.entry.kinds.now postings.entry.firsts.now postings.entry.seconds.now records.entry.lines.now records.entry.ends.now true 0 0)
        (λ d. DepartureSays matrix postings.entry.kinds.now postings.entry.firsts.now postings.entry.seconds.now records.entry.lines.now records.entry.ends.now false d.site d.line) }
{
    let mut notes = Notes {
        seen: 0,
        totals: [0; CLASSES],
    };
    for site in 0..records.ends.len() {
        let own = records.record_of(site);
        if let Some(line) = read_record(matrix, postings, own, &mut notes, places, ahead) {
            return Some(Unfit { site, line });
        }
    }
    None
}
