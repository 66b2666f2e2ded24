// What `board` prints, written into a lent slice: the lines of a finished run, or the line of a refusal.
// Rests on masks for sites, on books and posting for records, on sets. A place past the slice is counted and nothing is put there.
ghost use Rattle.std.specs.Prelude.{◌+◌, ◌/◌, ◌<◌, ◌≤◌, ◌≡◌, cond, [], ◌∷◌, ◌++◌, eqb, leb, length};
ghost use Rattle.posting.specs.Records.{numbers_of};
ghost use Rattle.books.specs.Books.{record_no};
ghost use Rattle.printer.specs.Output.{last_digit, decimal, event_line, event_lines, items, site_line, site_lines, log_line, quiet_line, board_lines, printed_of, refused_line, space, up_word, down_word, ok_word, no_word, newline};
ghost use Rattle.printer.specs.Writing.{slice_printed, written_of, answer_printed};
ghost use Rattle.printer.specs.Puts.{Put, most_events, longest_lines, surely_fits};

use crate::Ended;
use books::Records;
use masks::has_site;
use posting::Record;
use sets::{POSTINGS, wide};

pub const NEWLINE: u8 = b'\n';

const ZERO: usize = b'0' as usize;

// Below so many events, an event's number has four digits at most.
const MOST_EVENTS: usize = 10_000;

const EVENT_DIGITS: usize = 4;

// No line of an event is longer whose number has three digits, as those of the first 999 have; a refusal's has three.
const EVENT_LINE: usize = 13;

const SHORT_EVENTS: usize = 999;

// No line of any event is longer: its number has 20 digits at most.
const LONGEST_LINE: usize = 30;

// No line of a site is longer: its record has 256 numbers at most, of three digits.
const SITE_LINE: usize = 1_035;

// Nor are the log's line and the last, together.
const LAST_LINES: usize = 1_032;

// From a place on there are so many bytes in a slice of such a length. Nothing is added to the place, which may be the largest.
fn has_room(count: usize, at: usize, all: usize) -> bool
    ensures { result ≡ leb (at + count) all }
{
    count <= all && at <= all - count
}

// One byte, where the slice has room for it: the place is not tested. So it is with all functions whose names end with `in`.
fn put_in(byte: u8, at: usize, out: &mut [u8]) -> usize
    requires { at < length out.old }
    ensures { Put (byte ∷ []) at out.old out.new result }
{
    out[at] = byte;
    at + 1
}

// Two bytes.
fn put_pair_in(first: u8, second: u8, at: usize, out: &mut [u8]) -> usize
    requires { at + 2 ≤ length out.old }
    ensures { Put (first ∷ second ∷ []) at out.old out.new result }
{
    let place = put_in(first, at, out);
    put_in(second, place, out)
}

// Four bytes.
fn put_four_in(first: u8, second: u8, third: u8, fourth: u8, at: usize, out: &mut [u8]) -> usize
    requires { at + 4 ≤ length out.old }
    ensures { Put (first ∷ second ∷ third ∷ fourth ∷ []) at out.old out.new result }
{
    let place = put_pair_in(first, second, at, out);
    put_pair_in(third, fourth, place, out)
}

// One byte.
pub fn put(byte: u8, at: usize, out: &mut [u8]) -> usize
    ensures { Put (byte ∷ []) at out.old out.new result }
{
    if at < out.len() {
        put_in(byte, at, out)
    } else {
        at.saturating_add(1)
    }
}

// Some bytes.
pub fn put_text(text: &[u8], at: usize, out: &mut [u8]) -> usize
    ensures { Put text.now at out.old out.new result }
{
    let mut place = at;
    for &byte in text {
        place = put(byte, place, out);
    }
    place
}

// The last digit of a number.
pub fn last_digit(x: usize) -> u8
    ensures { result ≡ last_digit x }
{
    b'0' + (x % 10) as u8
}

// A number in base ten, of any length.
fn put_long(x: usize, at: usize, out: &mut [u8]) -> usize
    ensures { Put (decimal x) at out.old out.new result }
{
    let digit = last_digit(x);
    if x < 10 {
        return put(digit, at, out);
    }
    let place = put_long(x / 10, at, out);
    put(digit, place, out)
}

// The last two digits of a number. Both bytes are made as one number, so that the compiler stores them at once.
fn put_two_in(x: usize, at: usize, out: &mut [u8]) -> usize
    requires { at + 2 ≤ length out.old }
    ensures { Put (last_digit (x / 10) ∷ last_digit x ∷ []) at out.old out.new result }
{
    let low = x % 100;
    let both = ZERO + low / 10 + 256 * (ZERO + low % 10);
    put_pair_in((both % 256) as u8, (both / 256) as u8, at, out)
}

// A number of one digit, two or three.
fn put_short_in(x: usize, at: usize, out: &mut [u8]) -> usize
    requires { (x < 1_000) × (at + 3 ≤ length out.old) }
    ensures { Put (decimal x) at out.old out.new result }
{
    if x < 10 {
        return put_in(last_digit(x), at, out);
    }
    if x < 100 {
        return put_two_in(x, at, out);
    }
    let place = put_in(last_digit(x / 100), at, out);
    put_two_in(x, place, out)
}

// A number. Those that a run's lines have are of four digits at most; the places of a longer one are tested.
fn put_number_in(x: usize, at: usize, out: &mut [u8]) -> usize
    requires { at + 4 ≤ length out.old }
    ensures { Put (decimal x) at out.old out.new result }
{
    if x < 1_000 {
        return put_short_in(x, at, out);
    }
    if x < MOST_EVENTS {
        let place = put_two_in(x / 100, at, out);
        return put_two_in(x, place, out);
    }
    put_long(x, at, out)
}

// A number in base ten.
pub fn put_number(x: usize, at: usize, out: &mut [u8]) -> usize
    ensures { Put (decimal x) at out.old out.new result }
{
    if has_room(EVENT_DIGITS, at, out.len()) {
        return put_number_in(x, at, out);
    }
    put_long(x, at, out)
}

// An event's answer, given as the number of a refusal, 0 if it was accepted.
fn answer_in(refusal: u8, at: usize, out: &mut [u8]) -> usize
    requires { at + 8 ≤ length out.old }
    ensures { Put (cond (eqb refusal 0) ok_word (no_word ++ (decimal refusal ++ newline))) at out.old out.new result }
{
    if refusal == 0 {
        return put_four_in(b' ', b'o', b'k', NEWLINE, at, out);
    }
    let p = put_four_in(b' ', b'n', b'o', b' ', at, out);
    let q = put_number_in(wide(refusal), p, out);
    put_in(NEWLINE, q, out)
}

// E: the event's number, and its answer.
fn event_line_in(k: usize, refusal: u8, at: usize, out: &mut [u8]) -> usize
    requires { at + 30 ≤ length out.old }
    ensures { Put (event_line k refusal) at out.old out.new result }
{
    let p = put_pair_in(b'E', b' ', at, out);
    let q = put_number_in(k, p, out);
    answer_in(refusal, q, out)
}

// The same where there may be no room: the line is made in an array and put from there.
fn event_line_from_array(k: usize, refusal: u8, at: usize, out: &mut [u8]) -> usize
    ensures { Put (event_line k refusal) at out.old out.new result }
{
    let mut line = [0; LONGEST_LINE];
    let end = event_line_in(k, refusal, 0, &mut line);
    put_text(&line[..end], at, out)
}

// The same, anywhere.
fn event_line(k: usize, refusal: u8, at: usize, out: &mut [u8]) -> usize
    ensures { Put (event_line k refusal) at out.old out.new result }
{
    if has_room(LONGEST_LINE, at, out.len()) {
        return event_line_in(k, refusal, at, out);
    }
    event_line_from_array(k, refusal, at, out)
}

// The lines of all events.
fn event_lines(refusals: &[u8], at: usize, out: &mut [u8]) -> usize
    ensures { Put (event_lines 0 refusals.now) at out.old out.new result }
{
    let mut place = at;
    for (i, &refusal) in refusals.iter().enumerate() {
        place = event_line(i + 1, refusal, place, out);
    }
    place
}

// The numbers that a record has.
fn numbers_of(delivered: &Record) -> &[u8]
    ensures { result.now ≡ numbers_of delivered.now }
{
    &delivered.numbers[..delivered.count.min(POSTINGS)]
}

// A space and a number.
fn put_item(x: usize, at: usize, out: &mut [u8]) -> usize
    ensures { Put (space ++ decimal x) at out.old out.new result }
{
    let p = put(b' ', at, out);
    put_number(x, p, out)
}

// A record's numbers, a space before each.
fn put_items(delivered: Record, at: usize, out: &mut [u8]) -> usize
    ensures { Put (items (numbers_of delivered)) at out.old out.new result }
{
    let mut place = at;
    for &m in numbers_of(&delivered) {
        place = put_item(wide(m), place, out);
    }
    place
}

// Up or down.
pub fn put_state(down: bool, at: usize, out: &mut [u8]) -> usize
    ensures { Put (cond down down_word up_word) at out.old out.new result }
{
    if down {
        put_text(b" down", at, out)
    } else {
        put_text(b" up", at, out)
    }
}

// S: site, up or down, then its record's numbers.
fn site_line(p: u8, down: bool, delivered: Record, at: usize, out: &mut [u8]) -> usize
    ensures { Put (site_line p down (numbers_of delivered)) at out.old out.new result }
{
    let a = put_text(b"S ", at, out);
    let b = put_number(wide(p), a, out);
    let c = put_state(down, b, out);
    let d = put_items(delivered, c, out);
    put(NEWLINE, d, out)
}

// The record of site p; of what is no site, an empty one.
fn record_of(records: Records, p: usize) -> Record
    ensures { numbers_of result ≡ numbers_of (record_no records p) }
{
    match records.sites.get(p) {
        Some(&record) => record,
        None => Record {
            count: 0,
            numbers: [0; POSTINGS],
        },
    }
}

// The lines of the first n sites.
fn site_lines(n: u8, down: u8, records: Records, at: usize, out: &mut [u8]) -> usize
    ensures { Put (site_lines down records n) at out.old out.new result }
{
    let mut place = at;
    for p in 0..n {
        let delivered = record_of(records, wide(p));
        place = site_line(p, has_site(down, p), delivered, place, out);
    }
    place
}

// L: the log's postings.
fn log_line(log: Record, at: usize, out: &mut [u8]) -> usize
    ensures { Put (log_line (numbers_of log)) at out.old out.new result }
{
    let p = put(b'L', at, out);
    let q = put_items(log, p, out);
    put(NEWLINE, q, out)
}

// Q: quiet, yes or no.
fn quiet_line(quiet: bool, at: usize, out: &mut [u8]) -> usize
    ensures { Put (quiet_line quiet) at out.old out.new result }
{
    if quiet {
        put_text(b"Q yes\n", at, out)
    } else {
        put_text(b"Q no\n", at, out)
    }
}

// The lines of the board that a run ended on.
fn board_lines(ended: Ended, at: usize, out: &mut [u8]) -> usize
    ensures { Put (board_lines ended) at out.old out.new result }
{
    let p = site_lines(ended.n, ended.down, ended.records, at, out);
    let q = log_line(ended.log, p, out);
    quiet_line(ended.quiet, q, out)
}

// All lines of a finished run.
fn run_lines(refusals: &[u8], ended: Ended, at: usize, out: &mut [u8]) -> usize
    ensures { Put (printed_of refusals.now ended) at out.old out.new result }
{
    let p = event_lines(refusals, at, out);
    board_lines(ended, p, out)
}

// F: the number of a refusal.
fn refused_line(refusal: u8, at: usize, out: &mut [u8]) -> usize
    ensures { Put (refused_line refusal) at out.old out.new result }
{
    let p = put_text(b"F ", at, out);
    let q = put_number(wide(refusal), p, out);
    put(NEWLINE, q, out)
}

// The lines of so many events are no longer.
fn longest_lines(events: usize) -> usize
    requires { events < most_events }
    ensures { result ≡ longest_lines events }
{
    EVENT_LINE * events + events.saturating_sub(SHORT_EVENTS)
}

// A run of so many events and sites surely fits into so many bytes.
fn surely_fits(events: usize, n: u8, room: usize) -> bool
    ensures { result ≡ surely_fits events n room }
{
    events < MOST_EVENTS && longest_lines(events) + SITE_LINE * wide(n) + LAST_LINES <= room
}

// A finished run, printed: the refusal number of each event's answer, 0 if it was accepted, and what is shown of its last board.
// Where the lines may not fit they are counted first, on no bytes of the slice. The answer: how many bytes were written;
// none where the slice is shorter than the text, and then it stays.
pub fn print_run(refusals: &[u8], ended: Ended, out: &mut [u8]) -> Option<usize>
    ensures value { result ≡ answer_printed (printed_of refusals.now ended) out.old }
    ensures out_after { out.new ≡ slice_printed (printed_of refusals.now ended) out.old }
    ensures result_value { written_of result ≡ written_of (answer_printed (printed_of refusals.now ended) out.old) }
{
    if surely_fits(refusals.len(), ended.n, out.len()) {
        let end = run_lines(refusals, ended, 0, out);
        return Some(end);
    }
    let needed = run_lines(refusals, ended, 0, &mut out[..0]);
    if out.len() < needed {
        return None;
    }
    let end = run_lines(refusals, ended, 0, out);
    Some(end)
}

// The line of a refusal, printed: 1 of a malformed file, 2 to 5 of a refused start. It answers as print_run does.
pub fn print_refused(refusal: u8, out: &mut [u8]) -> Option<usize>
    ensures value { result ≡ answer_printed (refused_line refusal) out.old }
    ensures out_after { out.new ≡ slice_printed (refused_line refusal) out.old }
    ensures result_value { written_of result ≡ written_of (answer_printed (refused_line refusal) out.old) }
{
    let needed = refused_line(refusal, 0, &mut out[..0]);
    if out.len() < needed {
        return None;
    }
    let end = refused_line(refusal, 0, out);
    Some(end)
}
