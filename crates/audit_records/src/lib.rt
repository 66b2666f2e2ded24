// The audit of records that were handed over, for any arguments.
// Rests on audit_input, which judges them, audit_reading, which finds the line that departs, and audit_pair, which finds the pair that shows it.
#![tactic(auto)]

ghost use Rattle.std.specs.Prelude.{◌≡◌, ◌++◌, ◌≤◌, length, drop};
ghost use Rattle.audit_rule.specs.Audit.{departs, audit};
ghost use Rattle.audit_rule.specs.Handed.{record_of};
ghost use Rattle.audit_input.specs.Lawful.{Lawful};
ghost use Rattle.audit_records.specs.Audited.{conflicts, answering, audited, eight_of, audit_code, audit_slice};
ghost use Rattle.audit_records.specs.Needs.{shown, PairAt};

use audit_input::{AGREEMENT, Answer, judge};
use audit_pair::{finding, lowest_differing};
use audit_reading::{Unfit, departure};
use audit_rule::{Postings, Records};

// The answer for a line that departs: the lowest posting that differs there, and what the records say of the pair.
fn pair_at(
    matrix: u16,
    postings: Postings,
    records: Records,
    unfit: Unfit,
    marks: &mut [u8],
) -> Answer
    requires { PairAt matrix postings.kinds.now postings.firsts.now postings.seconds.now postings.amounts.now records.lines.now records.ends.now unfit.site unfit.line (length marks.old) }
    ensures { result ≡ answering matrix postings.entry.kinds.now postings.entry.firsts.now postings.entry.seconds.now postings.entry.amounts.now records.entry.lines.now records.entry.ends.now
        (departs unfit.site unfit.line (shown matrix postings.entry.kinds.now postings.entry.firsts.now postings.entry.seconds.now postings.entry.amounts.now records.entry.lines.now records.entry.ends.now unfit.site unfit.line)) }
{
    let Unfit { site, line } = unfit;
    let y = records.record_of(site)[line];
    let posting = lowest_differing(matrix, postings, records, site, y, marks).unwrap();
    let found = finding(records, posting as u16, y);
    Answer {
        code: found.code,
        site,
        line,
        posting,
        above: 0,
        first: usize::from(found.first),
        second: usize::from(found.second),
        here: found.here,
        there: found.there,
    }
}

// The audit of what is not refused.
fn audit_lawful(
    matrix: u16,
    postings: Postings,
    records: Records,
    marks: &mut [u8],
    places: &mut [u32],
    ahead: &mut [u32],
) -> Answer
    requires { Lawful matrix postings.kinds.now postings.firsts.now postings.seconds.now postings.amounts.now records.lines.now records.ends.now (length marks.old) (length places.old) (length ahead.old) }
    ensures { result ≡ answering matrix postings.entry.kinds.now postings.entry.firsts.now postings.entry.seconds.now postings.entry.amounts.now records.entry.lines.now records.entry.ends.now
        (audit (conflicts matrix postings.entry.kinds.now postings.entry.firsts.now postings.entry.seconds.now postings.entry.amounts.now) (length postings.entry.kinds.now) (length records.entry.ends.now) (record_of records.entry.lines.now records.entry.ends.now)) }
{
    places.fill(0);
    match departure(matrix, postings, records, places, ahead) {
        None => AGREEMENT,
        Some(unfit) => pair_at(matrix, postings, records, unfit, marks),
    }
}

// The audit: the first refusal that applies, or that the records agree, or the line and the pair that show that they do not. The postings have
// NO_KIND as kind where a number has none. The slices lent hold anything before and after.
pub fn audit_records(
    matrix: u16,
    postings: Postings,
    records: Records,
    marks: &mut [u8],
    places: &mut [u32],
    ahead: &mut [u32],
) -> Answer
    ensures { result ≡ audited matrix postings.entry.kinds.now postings.entry.firsts.now postings.entry.seconds.now postings.entry.amounts.now records.entry.lines.now records.entry.ends.now
        (length marks.old) (length places.old) (length ahead.old) }
{
    match judge(matrix, postings, records, marks, places.len(), ahead.len()) {
        Err(refusal) => refusal,
        Ok(()) => audit_lawful(matrix, postings, records, marks, places, ahead),
    }
}

// ---- for other languages

// How many numbers an answer's place and pair have.
pub const NUMBERS: usize = 8;

// The answer where the slice has no room for them.
pub const NO_ANSWER: u64 = 18_446_744_073_709_551_615;

// The place and the pair of an answer go to the first eight numbers of the slice.
fn put_answer(a: Answer, out: &mut [u64])
    requires { 8 ≤ length out.old }
    ensures { out.new ≡ eight_of a ++ drop 8 out.old }
{
    out[..NUMBERS].copy_from_slice(&[
        a.site as u64,
        a.line as u64,
        a.posting as u64,
        a.above as u64,
        a.first as u64,
        a.second as u64,
        a.here as u64,
        a.there as u64,
    ]);
}

// The audit, its answer as numbers: the code is handed back, the place and the pair are the first eight numbers of the slice. NO_ANSWER, and
// the slice as it was, if it is shorter than that. `kinds`, `firsts`, `seconds` and `amounts` are the fields of Postings, `lines` and `ends` those of Records.
#[tactic(auto, unfolding(crate::specs::Audited::audit_code, crate::specs::Audited::audit_slice))]
pub fn audit_numbers(
    matrix: u16,
    kinds: &[u8],
    firsts: &[u8],
    seconds: &[u8],
    amounts: &[u32],
    lines: &[u16],
    ends: &[usize],
    marks: &mut [u8],
    places: &mut [u32],
    ahead: &mut [u32],
    out: &mut [u64],
) -> u64
    ensures value { result ≡ audit_code (audited matrix kinds.now firsts.now seconds.now amounts.now lines.now ends.now
        (length marks.old) (length places.old) (length ahead.old)) out.old }
    ensures out_after { out.new ≡ audit_slice (audited matrix kinds.now firsts.now seconds.now amounts.now lines.now ends.now
        (length marks.old) (length places.old) (length ahead.old)) out.old }
{
    if out.len() < NUMBERS {
        return NO_ANSWER;
    }
    let postings = Postings {
        kinds,
        firsts,
        seconds,
        amounts,
    };
    let records = Records { lines, ends };
    let a = audit_records(matrix, postings, records, marks, places, ahead);
    put_answer(a, out);
    u64::from(a.code)
}
