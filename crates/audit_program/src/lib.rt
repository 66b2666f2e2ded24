// Program `audit` over the process's arguments: files are read, and the report is written to standard output.
// Rests on audit_files and audit_report for all of the work, on reading, on std for files and writing, of which no contract can say more.
#![tactic(auto)]

ghost use Rattle.std.specs.Prelude.{◌≡◌, ◌+◌, ◌<◌, ◌≤◌, length, IfOk, IfSome};

use audit_files::Refused;
use audit_files::files::{Read, Store, lower, read_postings, read_record, refusing, top_line};
use audit_input::{NO_KIND, POSTINGS, matrix_ok};
use audit_report::report;
use audit_rule::{Postings, Records};
use audit_witness::refusals::put_refused;
use audit_witness::witness::Input;
use reading::read_full;
use std::env::FillError;
use std::io::{Cursor, Write};
use std::rt::{Env, Files};
use std::{fs, io, str};

// What fills it is refused, however much follows; no file that is well formed does.
const TEXT: usize = 2_097_152;

const SITES: usize = 7;

// The lines of seven records, each of at most 65,537.
const LINES: usize = 458_759;

const AHEAD: usize = 524_288;

const FIGURES: usize = 448;

const OUTPUT: usize = 65_536;

// The longest name of a file.
const PATH: usize = 4096;

// No report of a refusal is longer.
const REFUSAL: usize = 4096;

// The fixed pairs.
const FIXED_PAIRS: u16 = 0x5B6C;

// Why a file gave nothing.
#[derive(Clone, Copy)]
enum Unread {
    Failed,
    TooLong,
}

// The refusals that no line of a file gives: of the arguments, of the matrix, of a file.
const BAD_ARGUMENTS: u8 = 1;

const BAD_MATRIX: u8 = 2;

const BAD_FILE: u8 = 3;

// The longest message of the system's.
const MESSAGE: usize = 512;

// A text on standard output; if it cannot be written, that is said on standard error.
fn write_out(rt: &(impl Print + Eprint), text: &[u8]) {
    if rt.write_all(text).is_err() {
        let _ = rt.eprintln("The report could not be written to its end.");
    }
}

// An argument at the start of the slice: how many bytes it has, or 0 where there is none that fits.
pub fn argument(rt: &impl Env, number: usize, word: &mut [u8]) -> usize
    ensures { result ≤ length word.new }
{
    rt.arg(number, word).unwrap_or(0)
}

// How many arguments there are, the program's own name among them, or the most, if there are more.
pub fn argument_count(rt: &impl Env, most: usize) -> usize
    ensures { result ≤ most }
{
    let mut word = [0; 1];
    for number in 0..most {
        if let Err(FillError::NotPresent) = rt.arg(number, &mut word) {
            return number;
        }
    }
    most
}

// What the system's message says; the number that std puts behind it is left out.
fn put_reason(rt: &impl Eprint, message: &str) {
    let reason = match message.split_once(" (os error ") {
        Some((reason, _)) => reason,
        None => message.trim_end_matches('\0'),
    };
    let _ = rt.eprintln(reason);
}

// A file and why it was not read, on standard error.
fn say_failed(rt: &impl Eprint, path: &str, error: &io::Error) {
    let mut message = Cursor::new([0; MESSAGE]);
    let _ = write!(message, "{error}");
    let _ = eprint!(rt; "{path}: ");
    put_reason(rt, str::from_utf8(message.get_ref()).unwrap_or(""));
}

// A file opened and read into the slice.
fn read_file(rt: &impl Files, path: &str, text: &mut [u8]) -> io::Result<usize>
    ensures { IfOk result (λ n. n ≤ length text.new) }
{
    let mut file = fs::open(rt, path)?;
    read_full(&mut file, text)
}

// The file of a name, read into the slice. What fails is said on standard error.
fn load_named(rt: &(impl Files + Eprint), path: &str, text: &mut [u8]) -> Result<usize, Unread>
    ensures { IfOk result (λ n. n ≤ length text.new) }
{
    match read_file(rt, path, text) {
        Ok(length) if length == text.len() => Err(Unread::TooLong),
        Ok(length) => Ok(length),
        Err(error) => {
            say_failed(rt, path, &error);
            Err(Unread::Failed)
        }
    }
}

// The file that an argument names, read into the slice. What fails is said on standard error.
fn load(rt: &(impl Files + Env + Eprint), number: usize, text: &mut [u8]) -> Result<usize, Unread>
    ensures { IfOk result (λ n. n ≤ length text.new) }
{
    let mut path = [0; PATH];
    let n = argument(rt, number, &mut path);
    match str::from_utf8(&path[..n]) {
        Ok(path) => load_named(rt, path, text),
        Err(_) => {
            let _ = eprintln!(rt; "Argument {number} is no text, and no file is read by it.");
            Err(Unread::Failed)
        }
    }
}

// Nothing is refused.
fn nothing() -> Refused {
    refusing(0, 0, 0, 0, 0)
}

// A file that was not read.
fn not_read(file: usize, why: Unread) -> Refused {
    match why {
        Unread::Failed => refusing(BAD_FILE, file, 0, 0, 0),
        Unread::TooLong => refusing(BAD_FILE, file, 0, 1, 0),
    }
}

// The postings that a record brings, if there is no file of postings.
fn read_own(own: bool, file: usize, text: &[u8], store: &mut Store) -> Refused
    requires { (file ≤ 7) × (length text.now ≤ 2_097_152) }
{
    if own {
        read_postings(
            true,
            file,
            text,
            &mut store.kinds,
            &mut store.firsts,
            &mut store.seconds,
            &mut store.amounts,
            &mut store.wheres,
        )
    } else {
        nothing()
    }
}

// The file of site p, read.
fn read_site(
    rt: &(impl Files + Env + Eprint),
    own: bool,
    number: usize,
    p: usize,
    text: &mut [u8; TEXT],
    store: &mut Store,
    lines: &mut [u16; LINES],
    from: usize,
    tops: &mut [u8; SITES],
) -> Read
    requires { (p < 7) × (from + 65_537 ≤ 458_759) }
    ensures { result.count ≤ 65_537 }
{
    let n = match load(rt, number, text) {
        Ok(n) => n,
        Err(why) => {
            return Read {
                count: 0,
                refused: not_read(p + 1, why),
            };
        }
    };
    tops[p] = top_line(&text[..n]) as u8;
    let brought = read_own(own, p + 1, &text[..n], store);
    let postings = Postings {
        kinds: &store.kinds,
        firsts: &store.firsts,
        seconds: &store.seconds,
        amounts: &store.amounts,
    };
    let read = read_record(p + 1, &text[..n], postings, &store.wheres, lines, from);
    let refused = lower(brought, read.refused);
    Read {
        count: read.count,
        refused,
    }
}

// The files of all sites, read: how many lines there are, and the first refusal.
fn read_sites(
    rt: &(impl Files + Env + Eprint),
    own: bool,
    number: usize,
    n: usize,
    text: &mut [u8; TEXT],
    store: &mut Store,
    lines: &mut [u16; LINES],
    ends: &mut [usize; SITES],
    tops: &mut [u8; SITES],
) -> Read
    requires { (n ≤ 7) × (number ≤ 1_000_000) }
    ensures { result.count ≤ 458_759 }
{
    let mut refused = nothing();
    let mut from = 0;
    for p in 0..n {
        let read = read_site(rt, own, number + p, p, text, store, lines, from, tops);
        refused = lower(refused, read.refused);
        from += read.count;
        ends[p] = from;
    }
    Read {
        count: from,
        refused,
    }
}

// The file of postings, read, unless the records bring their own.
fn read_first(
    rt: &(impl Files + Env + Eprint),
    own: bool,
    number: usize,
    text: &mut [u8; TEXT],
    store: &mut Store,
) -> Refused {
    if own {
        return nothing();
    }
    match load(rt, number, text) {
        Ok(n) => read_postings(
            false,
            0,
            &text[..n],
            &mut store.kinds,
            &mut store.firsts,
            &mut store.seconds,
            &mut store.amounts,
            &mut store.wheres,
        ),
        Err(why) => not_read(0, why),
    }
}

// Whether an argument is `-`: then the records bring their own postings.
fn is_own(rt: &impl Env, number: usize) -> bool {
    let mut path = [0; PATH];
    let n = argument(rt, number, &mut path);
    n == 1 && path[0] == b'-'
}

// All files, read.
fn read_files(
    rt: &(impl Files + Env + Eprint),
    number: usize,
    n: usize,
    text: &mut [u8; TEXT],
    store: &mut Store,
    lines: &mut [u16; LINES],
    ends: &mut [usize; SITES],
    tops: &mut [u8; SITES],
) -> Read
    requires { (n ≤ 7) × (number < 1_000_000) }
    ensures count_bound { result.count ≤ 458_759 }
    ensures lengths { (length lines.new ≡ 458_759) × (length ends.new ≡ 7) × (length tops.new ≡ 7) }
{
    let own = is_own(rt, number);
    let first = read_first(rt, own, number, text, store);
    let read = read_sites(rt, own, number + 1, n, text, store, lines, ends, tops);
    let refused = lower(first, read.refused);
    Read {
        count: read.count,
        refused,
    }
}

// The report of a refusal; no report of one is longer than the buffer.
fn say_refused(rt: &(impl Print + Eprint), refused: Refused) {
    let mut out = [0; REFUSAL];
    let end = put_refused(refused, 0, &mut out);
    if end <= out.len() {
        write_out(rt, &out[..end]);
    }
}

// Said where a report is longer than its buffer.
fn say_too_long(rt: &impl Eprint) {
    let _ = rt.eprintln("The report is too long to be written; there is no verdict.");
}

// The report of what was read.
fn report_read<'a>(
    rt: &(impl Print + Eprint),
    matrix: u16,
    records: Records<'a>,
    tops: &'a [u8],
    store: &'a mut Store,
)
    requires { (length records.lines.now ≤ 458_759) × (length records.ends.now ≤ length tops.now) }
{
    let mut marks = [0; POSTINGS];
    let mut ahead = [0; AHEAD];
    let mut figures = [0; FIGURES];
    let mut out = [0; OUTPUT];
    let input = Input {
        postings: Postings {
            kinds: &store.kinds,
            firsts: &store.firsts,
            seconds: &store.seconds,
            amounts: &store.amounts,
        },
        records,
        tops,
    };
    let answer = report(
        matrix,
        input,
        &mut marks,
        &mut store.wheres,
        &mut ahead,
        &mut figures,
        &mut out,
    );
    match answer {
        Some(count) => write_out(rt, &out[..count]),
        None => say_too_long(rt),
    }
}

// The report of files: read one after another into one buffer, judged, audited.
// No tactic looks at its goals, since it would write the arrays' cells out.
#[tactic(none)]
fn report_on(rt: &(impl Files + Env + Print + Eprint), matrix: u16, number: usize, n: usize)
    requires { (n ≤ 7) × (number < 1_000_000) }
{
    let mut text = [0; TEXT];
    let mut store = Store {
        kinds: [NO_KIND; POSTINGS],
        firsts: [0; POSTINGS],
        seconds: [0; POSTINGS],
        amounts: [0; POSTINGS],
        wheres: [0; POSTINGS],
    };
    let mut lines = [0; LINES];
    let mut ends = [0; SITES];
    let mut tops = [1; SITES];
    let read = read_files(
        rt, number, n, &mut text, &mut store, &mut lines, &mut ends, &mut tops,
    );
    if read.refused.code != 0 {
        say_refused(rt, read.refused);
        return;
    }
    let records = Records {
        lines: &lines[..read.count],
        ends: &ends[..n],
    };
    report_read(rt, matrix, records, &tops, &mut store);
}

// A site and its file, in a line.
fn name_site(rt: &(impl Env + Print + Eprint), number: usize, p: usize) {
    let mut path = [0; PATH];
    let n = argument(rt, number, &mut path);
    write_out(rt, b"Site ");
    let _ = rt.print(p);
    write_out(rt, b" is ");
    write_out(rt, &path[..n]);
    write_out(rt, b".\n");
}

fn name_sites(rt: &(impl Env + Print + Eprint), number: usize, n: usize)
    requires { (n ≤ 7) × (number ≤ 1_000_000) }
{
    for p in 0..n {
        name_site(rt, number + p, p);
    }
}

// A number of hexadecimal digits, 0 if there are none.
fn hex_number(digits: &[u8]) -> Option<u16> {
    let mut value: u16 = 0;
    for &byte in digits {
        let digit = char::from(byte).to_digit(16)?;
        value = value.checked_mul(16)?.checked_add(digit as u16)?;
    }
    Some(value)
}

// The matrix that an argument gives, which begins with 0x; it is 0, which is refused, where what follows is no matrix.
fn matrix_at(rt: &impl Env, number: usize) -> Option<u16> {
    let mut path = [0; PATH];
    let n = argument(rt, number, &mut path);
    let digits = path[..n].strip_prefix(b"0x")?;
    Some(hex_number(digits).unwrap_or(0))
}

// How many sites there are where the file of postings is one argument and another is the end.
fn sites_between(number: usize, end: usize) -> Option<usize>
    requires { number < 1_000_000 }
    ensures { IfSome result (λ n. n ≤ 7) }
{
    let n = end.checked_sub(number + 1)?;
    (1 <= n && n <= SITES).then_some(n)
}

// The arguments from a file of postings on, up to an end.
fn audit_from(rt: &(impl Files + Env + Print + Eprint), matrix: u16, number: usize, end: usize)
    requires { (number < 1_000_000) × (end < 1_000_000) }
{
    let Some(n) = sites_between(number, end) else {
        say_refused(rt, refusing(BAD_ARGUMENTS, 0, 0, 0, 0));
        return;
    };
    if !matrix_ok(matrix) {
        say_refused(rt, refusing(BAD_MATRIX, 0, 0, 0, 0));
        return;
    }
    report_on(rt, matrix, number, n);
    name_sites(rt, number + 1, n);
}

// The audit of the arguments from one up to another, which is not among them: perhaps a matrix, the file of postings or `-`, and a record for each site.
pub fn audit(rt: &(impl Files + Env + Print + Eprint), number: usize, end: usize)
    requires { (number < 900_000) × (end < 900_000) }
{
    match matrix_at(rt, number) {
        Some(matrix) => audit_from(rt, matrix, number + 1, end),
        None => audit_from(rt, FIXED_PAIRS, number, end),
    }
}
