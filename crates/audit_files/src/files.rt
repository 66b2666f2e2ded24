// Files read: postings into slices by their numbers, and a record's lines behind those of the sites before it; with the first refusal.
// Rests on entries for lines, on audit_input for numbers without a posting, on posting for the field rule.
ghost use Rattle.std.specs.Prelude.{ℕ, List, ◌≡◌, ◌+◌, ◌<◌, ◌≤◌, length, get_or, set, cond, leb};
ghost use Rattle.audit_pair.specs.Pair.{Fields};
ghost use Rattle.audit_files.specs.Entries.{line_feed, past, bare, first_line, headed, top_line, entries, number_in};
ghost use Rattle.audit_files.specs.Files.{refusing, nothing, lower, where_is, kept, posting_code, kept_all, postings_refused, line_code, lines_refused, record_lines, with_lines};
ghost use Rattle.audit_files.specs.Room.{Room};
ghost use Rattle.audit_files.specs.Steps.{entries_in, store};

use crate::entries::{entry_of, parted};
use crate::{Entry, Refused};
use audit_input::{POSTINGS, unused};
use audit_rule::Postings;
use posting::Posting;

const LINE_FEED: u8 = b'\n';

const CARRIAGE_RETURN: u8 = b'\r';

// A record's lines are handed on up to so many.
pub const MOST_LINES: usize = 65_537;

const MALFORMED: u8 = 4;

const OUTSIDE: u8 = 5;

const TWICE: u8 = 6;

const UNKNOWN: u8 = 7;

const OTHER_FIELDS: u8 = 8;

// The postings read so far, by number: their fields, and where each was read, 8 times the line, and the file.
// A caller lends the arrays of one, or any slices as long.
#[derive(Drop)]
pub struct Store {
    pub kinds: [u8; POSTINGS],
    pub firsts: [u8; POSTINGS],
    pub seconds: [u8; POSTINGS],
    pub amounts: [u32; POSTINGS],
    pub wheres: [u32; POSTINGS],
}

// A record read: how many lines were handed on, and the first refusal.
#[derive(Drop)]
pub struct Read {
    pub count: usize,
    pub refused: Refused,
}

pub fn refusing(code: u8, file: usize, line: usize, number: usize, other: usize) -> Refused
    ensures { result ≡ refusing code file line number other }
{
    Refused {
        code,
        file,
        line,
        number,
        other,
    }
}

// Of two refusals the one with the lower code; the first of two with the same.
pub fn lower(r: Refused, s: Refused) -> Refused
    ensures { result ≡ lower r s }
{
    if s.code != 0 && (r.code == 0 || s.code < r.code) {
        s
    } else {
        r
    }
}

// A line without the carriage return that may stand ahead of its line feed.
fn bare(line: &[u8]) -> &[u8]
    ensures { result.now ≡ bare line.now }
{
    match line.strip_suffix(&[CARRIAGE_RETURN]) {
        Some(text) => text,
        None => line,
    }
}

// The first line of a text, and what follows it. The last line, which has no line feed, ends with its file.
fn first_line(text: &[u8]) -> (&[u8], &[u8])
    ensures line { result.0.now ≡ first_line text.now }
    ensures behind { result.1.now ≡ past line_feed text.now }
{
    let (line, behind) = parted(LINE_FEED, text);
    if line.len() == text.len() {
        (line, behind)
    } else {
        (bare(line), behind)
    }
}

// Whether a file has a heading.
fn headed(file: &[u8]) -> bool
    ensures { result ≡ headed file.now }
{
    !file.is_empty() && file[0].is_ascii_alphabetic()
}

// The number of the first line that is no heading.
pub fn top_line(file: &[u8]) -> usize
    ensures { result ≡ top_line file.now }
{
    if headed(file) { 2 } else { 1 }
}

// What follows the heading.
fn below_heading(file: &[u8]) -> &[u8]
    ensures { result.now ≡ cond (headed file.now) (past line_feed file.now) file.now }
{
    if headed(file) {
        parted(LINE_FEED, file).1
    } else {
        file
    }
}

// The first of refusals 4 to 6 that applies to a line of postings; 0 if none does.
fn posting_code(own: bool, e: Entry, kinds: &[u8]) -> u8
    ensures { result ≡ posting_code own kinds.now e }
{
    let Entry::Whole {
        number,
        kind,
        a,
        b,
        amount,
    } = e
    else {
        return MALFORMED;
    };
    let p = Posting {
        owner: 0,
        kind,
        a,
        b,
        amount,
    };
    if !p.fields_ok() {
        OUTSIDE
    } else if own || unused(kinds, usize::from(number)) {
        0
    } else {
        TWICE
    }
}

// A line with all fields is kept, unless its number has a posting already.
fn keep(
    file: usize,
    line: usize,
    e: Entry,
    kinds: &mut [u8],
    firsts: &mut [u8],
    seconds: &mut [u8],
    amounts: &mut [u32],
    wheres: &mut [u32],
)
    requires { Room kinds.old firsts.old seconds.old amounts.old wheres.old × (file ≤ 7) × (line ≤ 2_097_154) }
    ensures { store kinds.new firsts.new seconds.new amounts.new wheres.new
        ≡ kept file line e (store kinds.old firsts.old seconds.old amounts.old wheres.old) }
{
    let Entry::Whole {
        number,
        kind,
        a,
        b,
        amount,
    } = e
    else {
        return;
    };
    let x = usize::from(number);
    if unused(kinds, x) {
        kinds[x] = kind;
        firsts[x] = a;
        seconds[x] = b;
        amounts[x] = amount;
        wheres[x] = (8 * line + file) as u32;
    }
}

// A line of postings: kept, and the refusal that applies to it.
fn note_posting(
    own: bool,
    file: usize,
    line: usize,
    e: Entry,
    kinds: &mut [u8],
    firsts: &mut [u8],
    seconds: &mut [u8],
    amounts: &mut [u32],
    wheres: &mut [u32],
) -> Refused
    requires { Room kinds.old firsts.old seconds.old amounts.old wheres.old × (file ≤ 7) × (line ≤ 2_097_154) }
    ensures value { result ≡ refusing (posting_code own kinds.old e) file line (number_in e) (get_or wheres.old (number_in e) 0) }
    ensures wheres_after { store kinds.new firsts.new seconds.new amounts.new wheres.new
        ≡ kept file line e (store kinds.old firsts.old seconds.old amounts.old wheres.old) }
{
    let code = posting_code(own, e, kinds);
    let x = usize::from(e.number());
    let other = wheres[x] as usize;
    keep(file, line, e, kinds, firsts, seconds, amounts, wheres);
    refusing(code, file, line, x, other)
}

// A file of postings read; `own` if it is a record that brings its own. The answer is the first refusal.
pub fn read_postings(
    own: bool,
    file: usize,
    text: &[u8],
    kinds: &mut [u8],
    firsts: &mut [u8],
    seconds: &mut [u8],
    amounts: &mut [u32],
    wheres: &mut [u32],
) -> Refused
    requires { Room kinds.old firsts.old seconds.old amounts.old wheres.old × (file ≤ 7) × (length text.now ≤ 2_097_152) }
    ensures value { result ≡ postings_refused own file (top_line text.now) (entries text.now) (store kinds.old firsts.old seconds.old amounts.old wheres.old) nothing }
    ensures wheres_after { store kinds.new firsts.new seconds.new amounts.new wheres.new
        ≡ kept_all file (top_line text.now) (entries text.now) (store kinds.old firsts.old seconds.old amounts.old wheres.old) }
{
    let mut refused = refusing(0, 0, 0, 0, 0);
    let mut line = top_line(text);
    let mut rest = below_heading(text);
    while !rest.is_empty() {
        let (said, behind) = first_line(rest);
        let e = entry_of(said);
        let next = note_posting(own, file, line, e, kinds, firsts, seconds, amounts, wheres);
        refused = lower(refused, next);
        rest = behind;
        line += 1;
    }
    refused
}

// The first of refusals 4, 7 and 8 that applies to a line of a record; 0 if none does. Where postings were read has no part in it.
fn line_code(e: Entry, postings: Postings) -> u8
    requires { Fields postings.kinds.now postings.firsts.now postings.seconds.now postings.amounts.now }
    ensures { (wheres : List ℕ) → result ≡ line_code (store postings.entry.kinds.now postings.entry.firsts.now postings.entry.seconds.now postings.entry.amounts.now wheres) e }
{
    if let Entry::Malformed = e {
        return MALFORMED;
    }
    let x = usize::from(e.number());
    if unused(postings.kinds, x) {
        return UNKNOWN;
    }
    let Entry::Whole {
        kind,
        a,
        b,
        amount,
        ..
    } = e
    else {
        return 0;
    };
    if postings.kinds[x] == kind
        && postings.firsts[x] == a
        && postings.seconds[x] == b
        && postings.amounts[x] == amount
    {
        0
    } else {
        OTHER_FIELDS
    }
}

// The refusal that applies to a line of a record.
fn judge_line(file: usize, line: usize, e: Entry, postings: Postings, wheres: &[u32]) -> Refused
    requires { Room postings.kinds.now postings.firsts.now postings.seconds.now postings.amounts.now wheres.now }
    ensures { result ≡ refusing (line_code (store postings.entry.kinds.now postings.entry.firsts.now postings.entry.seconds.now postings.entry.amounts.now wheres.now) e) file line (number_in e) (get_or wheres.now (number_in e) 0) }
{
    let code = line_code(e, postings);
    let x = usize::from(e.number());
    refusing(code, file, line, x, wheres[x] as usize)
}

// A line handed on, behind `count` others of its record; past the most it is left out.
fn note_line(number: u16, lines: &mut [u16], from: usize, count: usize) -> usize
    requires { from + 65_537 ≤ length lines.old }
    ensures value { result ≡ cond (leb 65_537 count) count (count + 1) }
    ensures lines_after { lines.new ≡ cond (leb 65_537 count) lines.old (set lines.old (from + count) number) }
{
    if count < MOST_LINES {
        lines[from + count] = number;
        count + 1
    } else {
        count
    }
}

// A site's record read, its lines put behind those of the sites before it.
pub fn read_record(
    file: usize,
    text: &[u8],
    postings: Postings,
    wheres: &[u32],
    lines: &mut [u16],
    from: usize,
) -> Read
    requires { Room postings.kinds.now postings.firsts.now postings.seconds.now postings.amounts.now wheres.now × (from + 65_537 ≤ length lines.old) × (length text.now ≤ 2_097_152) }
    ensures refused_value { result.refused ≡ lines_refused (store postings.entry.kinds.now postings.entry.firsts.now postings.entry.seconds.now postings.entry.amounts.now wheres.now) file (top_line text.now) (entries text.now) nothing }
    ensures count_value { result.count ≡ length (record_lines (entries text.now)) }
    ensures lines_after { lines.new ≡ with_lines lines.old from (record_lines (entries text.now)) }
{
    let mut refused = refusing(0, 0, 0, 0, 0);
    let mut count = 0;
    let mut line = top_line(text);
    let mut rest = below_heading(text);
    while !rest.is_empty() {
        let (said, behind) = first_line(rest);
        let e = entry_of(said);
        let next = judge_line(file, line, e, postings, wheres);
        refused = lower(refused, next);
        count = note_line(e.number(), lines, from, count);
        rest = behind;
        line += 1;
    }
    Read { count, refused }
}
