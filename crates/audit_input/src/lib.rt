// The judge of what is handed over for an audit: the first refusal that applies, with its place.
// Rests on posting for the field rule and the matrix, and on audit_pair for places in a record.
#![tactic(auto)]

ghost use Rattle.std.specs.Prelude.{◌≡◌, ℕ, ◌<◌, ◌≤◌, length, get_or};
ghost use Rattle.audit_rule.specs.Audit.{joined};
ghost use Rattle.audit_rule.specs.Handed.{record_of};
ghost use Rattle.audit_rule.specs.Needs.{Rising, Numbered};
ghost use Rattle.audit_rule.specs.Searches.{if_below, lowest_below};
ghost use Rattle.audit_pair.specs.Pair.{Fields};
ghost use Rattle.audit_input.specs.Input.{refusal, sites_ok, matrix_ok, ends_ok, fields_long, lent_long, unused, unlawful, unknown_line, repeated_line, first_spot, number_at, above_at, sizes_code, lines_judged, judged};
ghost use Rattle.audit_input.specs.Refusals.{number_of, code_of, judgement, found_spot};

use audit_pair::place_of;
use audit_rule::{Postings, Records};
use books::SITES;

// What stands in place of a kind where a number has no posting.
pub const NO_KIND: u8 = 255;

// The most postings.
pub const POSTINGS: usize = 65_536;

// The refusals, by their numbers.
#[derive(Clone, Copy, Debug, PartialEq, Eq)]
pub enum Refusal {
    Sites = 1,
    Matrix = 2,
    Sizes = 3,
    Fields = 5,
    Unknown = 7,
    Twice = 9,
}

impl Refusal {
    // Its number, as it is answered to other languages.
    pub fn number(self) -> u8
        ensures { result ≡ number_of self }
    {
        self as u8
    }
}

// What the audit answers. The code is 0 if the records agree, the number of a refusal up to 9, or 10 to 12 for a pair (audit_pair's constants).
// A refusal names its site, line and posting, and for a posting named twice the line above. A pair comes with the line that departs, and
// with the sites that show it.
#[derive(Clone, Copy)]
pub struct Answer {
    pub code: u8,
    pub site: usize,
    pub line: usize,
    pub posting: usize,
    pub above: usize,
    pub first: usize,
    pub second: usize,
    pub here: usize,
    pub there: usize,
}

// The records agree, or no refusal applies: no place is named.
pub const AGREEMENT: Answer = Answer {
    code: 0,
    site: 0,
    line: 0,
    posting: 0,
    above: 0,
    first: 0,
    second: 0,
    here: 0,
    there: 0,
};

// A line of a site's record.
#[derive(Clone, Copy)]
pub struct Spot {
    pub site: usize,
    pub line: usize,
}

// A refusal at a place.
fn refused(why: Refusal, site: usize, line: usize, posting: usize, above: usize) -> Answer
    ensures { result ≡ refusal (number_of why) site line posting above }
{
    Answer {
        code: why.number(),
        site,
        line,
        posting,
        above,
        ..AGREEMENT
    }
}

// Whether there are one to seven records.
#[tactic(auto, unfolding(crate::specs::Input::sites_ok))]
fn sites_ok(ends: &[usize]) -> bool
    ensures { result ≡ sites_ok ends.now }
{
    1 <= ends.len() && ends.len() <= SITES
}

// Whether the matrix is symmetric and has the fixed pairs.
#[tactic(auto, unfolding(crate::specs::Input::matrix_ok))]
pub fn matrix_ok(matrix: u16) -> bool
    ensures { result ≡ matrix_ok matrix }
{
    posting::symmetric(matrix) && posting::has_fixed_pairs(matrix)
}

// Whether the sites' lines follow one another, to the last.
fn ends_ok(records: Records) -> bool
    ensures { result ≡ ends_ok (length records.entry.lines.now) records.entry.ends.now }
{
    let mut from = 0;
    for to in records.ends {
        if *to < from {
            return false;
        }
        from = *to;
    }
    from == records.lines.len()
}

// Whether there are at most 65,536 numbers, and each field in its slice for each.
#[tactic(auto, unfolding(crate::specs::Input::fields_long))]
pub fn fields_long(kinds: usize, firsts: usize, seconds: usize, amounts: usize) -> bool
    ensures { result ≡ fields_long kinds firsts seconds amounts }
{
    kinds <= POSTINGS && firsts == kinds && seconds == kinds && amounts == kinds
}

// Whether the slices lent have room.
#[tactic(auto, unfolding(crate::specs::Input::lent_long))]
fn lent_long(kinds: usize, marks: usize, places: usize, ahead: usize) -> bool
    requires { kinds ≤ 65536 }
    ensures { result ≡ lent_long kinds marks places ahead }
{
    kinds <= marks && kinds <= places && 8 * kinds <= ahead
}

// Whether a number has no posting, past the slices too.
#[tactic(auto, unfolding(crate::specs::Input::unused))]
pub fn unused(kinds: &[u8], x: usize) -> bool
    ensures { result ≡ unused kinds.now x }
{
    kinds.len() <= x || kinds[x] == NO_KIND
}

// Whether a posting is there whose fields are outside their row.
#[tactic(auto, unfolding(crate::specs::Input::unlawful, crate::specs::Input::unused))]
fn unlawful(postings: Postings, x: usize) -> bool
    requires { Fields postings.kinds.now postings.firsts.now postings.seconds.now postings.amounts.now × (x < length postings.kinds.now) }
    ensures { result ≡ unlawful postings.entry.kinds.now postings.entry.firsts.now postings.entry.seconds.now postings.entry.amounts.now x }
{
    postings.kinds[x] != NO_KIND && !postings.posting_at(x).fields_ok()
}

// The lowest number whose posting is unlawful.
pub fn first_unlawful(postings: Postings) -> Option<usize>
    requires { Fields postings.kinds.now postings.firsts.now postings.seconds.now postings.amounts.now }
    ensures { result ≡ lowest_below (unlawful postings.entry.kinds.now postings.entry.firsts.now postings.entry.seconds.now postings.entry.amounts.now) (length postings.entry.kinds.now) }
{
    for x in 0..postings.kinds.len() {
        if unlawful(postings, x) {
            return Some(x);
        }
    }
    None
}

// The first line of a record with a number that has no posting.
pub fn unknown_line(kinds: &[u8], lines: &[u16]) -> Option<usize>
    ensures { result ≡ if_below (unknown_line kinds.now lines.now) (length lines.now) }
{
    for (i, x) in lines.iter().enumerate() {
        if unused(kinds, usize::from(*x)) {
            return Some(i);
        }
    }
    None
}

// The first record that has a line with a number that has no posting, and the line.
fn first_unknown(kinds: &[u8], records: Records) -> Option<Spot>
    requires { Rising records.lines.now records.ends.now }
    ensures { result ≡ found_spot (first_spot (unknown_line kinds.now) (length records.entry.ends.now) (record_of records.entry.lines.now records.entry.ends.now)) (length records.entry.ends.now) }
{
    for site in 0..records.ends.len() {
        if let Some(line) = unknown_line(kinds, records.record_of(site)) {
            return Some(Spot { site, line });
        }
    }
    None
}

// The first line of a record with a number that stands above it.
fn repeated_line(lines: &[u16], marks: &mut [u8]) -> Option<usize>
    requires { Numbered lines.now (length marks.old) }
    ensures { result ≡ if_below (repeated_line lines.now) (length lines.now) }
{
    marks.fill(0);
    for (i, x) in lines.iter().enumerate() {
        let x = usize::from(*x);
        if marks[x] != 0 {
            return Some(i);
        }
        marks[x] = 1;
    }
    None
}

// The first record that has a line with a number that stands above it, and the line.
fn first_repeat(records: Records, marks: &mut [u8]) -> Option<Spot>
    requires { Rising records.lines.now records.ends.now × Numbered records.lines.now (length marks.old) }
    ensures { result ≡ found_spot (first_spot repeated_line (length records.entry.ends.now) (record_of records.entry.lines.now records.entry.ends.now)) (length records.entry.ends.now) }
{
    for site in 0..records.ends.len() {
        if let Some(line) = repeated_line(records.record_of(site), marks) {
            return Some(Spot { site, line });
        }
    }
    None
}

// A line with a number that has no posting is refused.
fn refused_unknown(records: Records, spot: Spot) -> Answer
    requires { Rising records.lines.now records.ends.now × (spot.site < length records.ends.now) × (spot.line < length (record_of records.lines.now records.ends.now spot.site)) }
    ensures { result ≡ refusal 7 spot.site spot.line (number_at records.entry.lines.now records.entry.ends.now spot) 0 }
{
    let Spot { site, line } = spot;
    let number = records.record_of(site)[line];
    refused(Refusal::Unknown, site, line, usize::from(number), 0)
}

// A line with a number that stands above it is refused.
fn refused_twice(records: Records, spot: Spot) -> Answer
    requires { Rising records.lines.now records.ends.now × (spot.site < length records.ends.now) × (spot.line < length (record_of records.lines.now records.ends.now spot.site)) }
    ensures { result ≡ refusal 9 spot.site spot.line (number_at records.entry.lines.now records.entry.ends.now spot) (above_at records.entry.lines.now records.entry.ends.now spot) }
{
    let Spot { site, line } = spot;
    let own = records.record_of(site);
    let number = own[line];
    let above = place_of(own, number);
    refused(Refusal::Twice, site, line, usize::from(number), above)
}

// The first of refusals 1 to 3 that applies.
#[tactic(auto, unfolding(crate::specs::Input::sizes_code))]
fn sizes_refusal(
    matrix: u16,
    postings: Postings,
    records: Records,
    marks: usize,
    places: usize,
    ahead: usize,
) -> Option<Refusal>
    ensures { code_of result ≡ sizes_code matrix postings.entry.kinds.now postings.entry.firsts.now postings.entry.seconds.now postings.entry.amounts.now records.entry.lines.now records.entry.ends.now marks places ahead }
{
    let Postings {
        kinds,
        firsts,
        seconds,
        amounts,
    } = postings;
    let long = fields_long(kinds.len(), firsts.len(), seconds.len(), amounts.len());
    if !sites_ok(records.ends) {
        Some(Refusal::Sites)
    } else if !matrix_ok(matrix) {
        Some(Refusal::Matrix)
    } else if long && ends_ok(records) && lent_long(kinds.len(), marks, places, ahead) {
        None
    } else {
        Some(Refusal::Sizes)
    }
}

// The first of refusals 7 and 9 that applies, as an error.
fn judge_lines(kinds: &[u8], records: Records, marks: &mut [u8]) -> Result<(), Answer>
    requires { Rising records.lines.now records.ends.now × (length kinds.now ≤ length marks.old) × (joined (record_of records.lines.now records.ends.now) (length records.ends.now) ≡ records.lines.now) }
    ensures { result ≡ judgement (lines_judged kinds.now records.entry.lines.now records.entry.ends.now) }
{
    if let Some(spot) = first_unknown(kinds, records) {
        return Err(refused_unknown(records, spot));
    }
    if let Some(spot) = first_repeat(records, marks) {
        return Err(refused_twice(records, spot));
    }
    Ok(())
}

// The first refusal that applies to what is handed over, and to the lengths of the slices lent, as an error.
pub fn judge(
    matrix: u16,
    postings: Postings,
    records: Records,
    marks: &mut [u8],
    places: usize,
    ahead: usize,
) -> Result<(), Answer>
    ensures { result ≡ judgement (judged matrix postings.entry.kinds.now postings.entry.firsts.now postings.entry.seconds.now postings.entry.amounts.now records.entry.lines.now records.entry.ends.now (length marks.old) places ahead) }
{
    if let Some(why) = sizes_refusal(matrix, postings, records, marks.len(), places, ahead) {
        return Err(refused(why, 0, 0, 0, 0));
    }
    if let Some(x) = first_unlawful(postings) {
        return Err(refused(Refusal::Fields, 0, 0, x, 0));
    }
    judge_lines(postings.kinds, records, marks)
}
