// The audit's report, written into a lent slice: a place past it is counted and nothing is put there.
// Rests on audit_records for the answer, on audit_books for figures, on audit_lacks for what a site lacks, on audit_witness and audit_table for words.
#![tactic(auto)]

ghost use Rattle.std.specs.Prelude.{◌≡◌, ◌<◌, ◌≤◌, cond, length, get_or};
ghost use Rattle.printer.specs.Puts.{Put};
ghost use Rattle.printer.specs.Writing.{slice_printed, answer_printed};
ghost use Rattle.amounts.specs.Amounts.{text};
ghost use Rattle.audit_pair.specs.Pair.{Fields};
ghost use Rattle.audit_witness.specs.Needs.{Filed, Told};
ghost use Rattle.audit_report.specs.Report.{read_words, lack_line, refusal_of, answer_text, report_text};
ghost use Rattle.audit_report.specs.Needs.{lacked_lines, LacksKnown, agreed_words, departs_words, Accepted, Ready, Noted, Prepared};

use audit_books::figures_all;
use audit_files::Refused;
use audit_input::Answer;
use audit_lacks::{all_hold, count_postings, note_lacked};
use audit_records::audit_records;
use audit_rule::{Postings, Records};
use audit_table::put_table;
use audit_witness::refusals::put_refused;
use audit_witness::witness::{Input, put_posting, put_witness};
use printer::print::{put_number, put_text};

const SITES: usize = 7;

// What is noted of records that are not refused: how many postings each site lacks, the lowest of them, and the figures of all.
#[derive(Clone, Copy)]
struct Notes<'a> {
    counts: &'a [usize],
    lowests: &'a [usize],
    figures: &'a [i64],
}

// What was read.
fn put_read(kinds: &[u8], records: Records, at: usize, out: &mut [u8]) -> usize
    ensures { Put (read_words kinds.now (length records.entry.lines.now) (length records.entry.ends.now)) at out.old out.new result }
{
    let a = put_text(b"Records read: ", at, out);
    let b = put_number(records.ends.len(), a, out);
    let c = put_text(b". Lines: ", b, out);
    let d = put_number(records.lines.len(), c, out);
    let e = put_text(b". Postings: ", d, out);
    let f = put_number(count_postings(kinds), e, out);
    put_text(b".\n", f, out)
}

// What a site lacks.
fn put_lack(kinds: &[u8], p: usize, many: usize, lowest: usize, at: usize, out: &mut [u8]) -> usize
    requires { ¬ (many ≡ 0) → lowest < length kinds.now }
    ensures { Put (lack_line kinds.now p many lowest) at out.old out.new result }
{
    if many == 0 {
        return at;
    }
    let a = put_text(b"Site ", at, out);
    let b = put_number(p, a, out);
    let c = put_text(b" lacks ", b, out);
    let d = put_number(many, c, out);
    let e = put_text(b" of the postings that others hold, the lowest ", d, out);
    let f = put_posting(kinds, lowest, e, out);
    put_text(b".\n", f, out)
}

// What the sites lack.
fn put_lacks(kinds: &[u8], n: usize, notes: Notes, at: usize, out: &mut [u8]) -> usize
    requires { LacksKnown kinds.now notes.counts.now notes.lowests.now n }
    ensures { Put (lacked_lines kinds.now notes.entry.counts.now notes.entry.lowests.now n) at out.old out.new result }
{
    let mut place = at;
    for p in 0..n {
        place = put_lack(kinds, p, notes.counts[p], notes.lowests[p], place, out);
    }
    place
}

// The verdict of records that agree.
fn put_verdict(same: bool, at: usize, out: &mut [u8]) -> usize
    ensures { Put (cond same (text "SAME BOOKS\n") (text "AGREE SO FAR\n")) at out.old out.new result }
{
    if same {
        put_text(b"SAME BOOKS\n", at, out)
    } else {
        put_text(b"AGREE SO FAR\n", at, out)
    }
}

// The report of records that agree.
fn put_agreed(kinds: &[u8], records: Records, notes: Notes, at: usize, out: &mut [u8]) -> usize
    requires { LacksKnown kinds.now notes.counts.now notes.lowests.now (length records.ends.now) × (length records.ends.now ≤ 7) }
    ensures { Put (agreed_words kinds.now (length records.entry.lines.now) (length records.entry.ends.now) notes.entry.counts.now notes.entry.lowests.now notes.entry.figures.now) at out.old out.new result }
{
    let n = records.ends.len();
    let same = all_hold(n, notes.counts);
    let a = put_verdict(same, at, out);
    let b = put_read(kinds, records, a, out);
    let c = put_lacks(kinds, n, notes, b, out);
    let d = put_text(
        b"One order for all: site 0's record, then what site 1 has beyond it, and so on.\n",
        c,
        out,
    );
    put_table(notes.figures, n, d, out)
}

// The report of records that do not.
fn put_departs(input: Input, figures: &[i64], r: Answer, at: usize, out: &mut [u8]) -> usize
    requires { Filed input.records.lines.now input.records.ends.now input.tops.now × Told input.postings.kinds.now input.records.ends.now r × Fields input.postings.kinds.now input.postings.firsts.now input.postings.seconds.now input.postings.amounts.now }
    ensures { Put (departs_words input.entry.postings.kinds.now input.entry.postings.firsts.now input.entry.postings.seconds.now input.entry.postings.amounts.now input.entry.records.lines.now input.entry.records.ends.now input.entry.tops.now figures.now r) at out.old out.new result }
{
    let a = put_text(b"DO NOT AGREE\n", at, out);
    let b = put_witness(input, r, a, out);
    let c = put_read(input.postings.kinds, input.records, b, out);
    put_table(figures, input.records.ends.len(), c, out)
}

// The number of the first line of a site's file that is no heading.
fn top_of(tops: &[u8], site: usize) -> usize
    ensures value { result ≡ get_or tops.now site 0 }
    ensures upper_bound { result ≤ 255 }
{
    if site < tops.len() {
        usize::from(tops[site])
    } else {
        0
    }
}

// A refused answer, at the line of its site's file.
fn refusal_of(tops: &[u8], r: Answer) -> Refused
    requires { (r.site ≤ 7) × (r.line ≤ 458_759) × (r.above ≤ 458_759) }
    ensures { result ≡ refusal_of tops.now r }
{
    let top = top_of(tops, r.site);
    let file = r.site + 1;
    Refused {
        code: r.code,
        file,
        line: top + r.line,
        number: r.posting,
        other: 8 * (top + r.above) + file,
    }
}

// The report of any answer.
fn put_answer(input: Input, notes: Notes, r: Answer, at: usize, out: &mut [u8]) -> usize
    requires { Prepared input.postings.kinds.now input.postings.firsts.now input.postings.seconds.now input.postings.amounts.now input.records.lines.now input.records.ends.now input.tops.now notes.counts.now notes.lowests.now notes.figures.now r }
    ensures { Put (answer_text input.entry.postings.kinds.now input.entry.postings.firsts.now input.entry.postings.seconds.now input.entry.postings.amounts.now input.entry.records.lines.now input.entry.records.ends.now input.entry.tops.now r) at out.old out.new result }
{
    match r.code {
        0 => put_agreed(input.postings.kinds, input.records, notes, at, out),
        1..=9 => put_refused(refusal_of(input.tops, r), at, out),
        _ => put_departs(input, notes.figures, r, at, out),
    }
}

// The report of any answer, printed. It is counted first, on no bytes of the slice.
fn print_answer(input: Input, notes: Notes, r: Answer, out: &mut [u8]) -> Option<usize>
    requires { Prepared input.postings.kinds.now input.postings.firsts.now input.postings.seconds.now input.postings.amounts.now input.records.lines.now input.records.ends.now input.tops.now notes.counts.now notes.lowests.now notes.figures.now r }
    ensures value { result ≡ answer_printed (answer_text input.entry.postings.kinds.now input.entry.postings.firsts.now input.entry.postings.seconds.now input.entry.postings.amounts.now input.entry.records.lines.now input.entry.records.ends.now input.entry.tops.now r) out.old }
    ensures out_after { out.new ≡ slice_printed (answer_text input.entry.postings.kinds.now input.entry.postings.firsts.now input.entry.postings.seconds.now input.entry.postings.amounts.now input.entry.records.lines.now input.entry.records.ends.now input.entry.tops.now r) out.old }
{
    let needed = put_answer(input, notes, r, 0, &mut out[0..0]);
    if out.len() < needed {
        return None;
    }
    Some(put_answer(input, notes, r, 0, out))
}

// What each site lacks, and the figures of all records, where the report needs them: where the records were not refused.
fn prepare(
    code: u8,
    postings: Postings,
    records: Records,
    marks: &mut [u8],
    counts: &mut [usize],
    lowests: &mut [usize],
    figures: &mut [i64],
)
    requires { Accepted code → Ready postings.kinds.now postings.firsts.now postings.seconds.now postings.amounts.now records.lines.now records.ends.now (length marks.old) (length counts.old) (length lowests.old) (length figures.old) }
    ensures { Accepted code → Noted postings.entry.kinds.now postings.entry.firsts.now postings.entry.seconds.now postings.entry.amounts.now records.entry.lines.now records.entry.ends.now counts.new lowests.new figures.new }
{
    if code == 0 || 10 <= code {
        note_lacked(records, postings.kinds.len(), marks, counts, lowests);
        figures_all(postings, records, figures);
    }
}

// The audit's report of what was handed over. The slices lent to work in hold anything after it.
pub fn report(
    matrix: u16,
    input: Input,
    marks: &mut [u8],
    places: &mut [u32],
    ahead: &mut [u32],
    figures: &mut [i64],
    out: &mut [u8],
) -> Option<usize>
    requires { (length input.records.lines.now ≤ 458_759) × (length input.records.ends.now ≤ length input.tops.now) × (448 ≤ length figures.old) }
    ensures value { result ≡ answer_printed (report_text matrix input.entry.postings.kinds.now input.entry.postings.firsts.now input.entry.postings.seconds.now input.entry.postings.amounts.now input.entry.records.lines.now input.entry.records.ends.now input.entry.tops.now (length marks.old) (length places.old) (length ahead.old)) out.old }
    ensures out_after { out.new ≡ slice_printed (report_text matrix input.entry.postings.kinds.now input.entry.postings.firsts.now input.entry.postings.seconds.now input.entry.postings.amounts.now input.entry.records.lines.now input.entry.records.ends.now input.entry.tops.now (length marks.old) (length places.old) (length ahead.old)) out.old }
{
    let mut counts = [0; SITES];
    let mut lowests = [0; SITES];
    let r = audit_records(matrix, input.postings, input.records, marks, places, ahead);
    prepare(
        r.code,
        input.postings,
        input.records,
        marks,
        &mut counts,
        &mut lowests,
        figures,
    );
    let notes = Notes {
        counts: &counts,
        lowests: &lowests,
        figures,
    };
    print_answer(input, notes, r, out)
}
