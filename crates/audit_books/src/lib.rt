// The books of a record of up to 65,536 lines, posted from zeros.
// Rests on books for what a posting does to an account, and on audit_input for what is refused.
#![tactic(auto)]

ghost use Rattle.std.specs.Prelude.{◌≡◌, ◌++◌, ◌*◌, ◌<◌, ◌≤◌, length, drop};
ghost use Rattle.books.specs.Books.{books, blank, numbers, sheet_of};
ghost use Rattle.audit_rule.specs.Handed.{table_of};
ghost use Rattle.audit_input.specs.Refusals.{code_of};
ghost use Rattle.audit_books.specs.Lines.{Postable};
ghost use Rattle.audit_books.specs.Figures.{figures_code, figures_slice};
ghost use Rattle.audit_books.specs.All.{numbers_of_site, numbers_of_all, AllPostable};

use audit_input::{POSTINGS, Refusal, fields_long, first_unlawful, unknown_line};
use audit_rule::{Postings, Records};
use books::{FIGURES, Sheet};
use posting::net_of_all;

// The most lines of a record: as many as there can be postings.
const MOST_LINES: usize = POSTINGS;

// The sheet of a record: its lines posted one by one from zeros. Where a posting touches accounts a and b the sheet is changed in place,
// so that it is not copied for each line.
fn posted_lines(postings: Postings, lines: &[u16]) -> Sheet
    requires { Postable postings.kinds.now postings.firsts.now postings.seconds.now postings.amounts.now lines.now }
    ensures { result ≡ sheet_of (books blank (table_of postings.entry.kinds.now postings.entry.firsts.now postings.entry.seconds.now postings.entry.amounts.now) lines.now) }
{
    let mut sheet = books::blank();
    for m in lines {
        let p = postings.posting_at(usize::from(*m));
        if net_of_all(p.kind, p.a, p.b) {
            sheet = books::net_all(sheet);
        } else {
            let a = usize::from(p.a);
            sheet.accounts[a] = books::change(p, p.a, sheet.accounts[a]);
            let b = usize::from(p.b);
            sheet.accounts[b] = books::change_b(p, sheet.accounts[b]);
        }
    }
    sheet
}

// The books of a record fill the first 64 numbers of the slice; what lies beyond stays.
fn figures_of(postings: Postings, lines: &[u16], out: &mut [i64])
    requires { Postable postings.kinds.now postings.firsts.now postings.seconds.now postings.amounts.now lines.now × (64 ≤ length out.old) }
    ensures { out.new ≡ numbers (books blank (table_of postings.entry.kinds.now postings.entry.firsts.now postings.entry.seconds.now postings.entry.amounts.now) lines.now) ++ drop 64 out.old }
{
    let sheet = posted_lines(postings, lines);
    books::fill(sheet, out);
}

// The first refusal that applies to the books of a record, with the length of the slice lent.
#[tactic(auto, unfolding(crate::specs::Figures::figures_code))]
fn figures_refusal(postings: Postings, lines: &[u16], room: usize) -> Option<Refusal>
    ensures { code_of result ≡ figures_code postings.entry.kinds.now postings.entry.firsts.now postings.entry.seconds.now postings.entry.amounts.now lines.now room }
{
    let Postings {
        kinds,
        firsts,
        seconds,
        amounts,
    } = postings;
    let long = fields_long(kinds.len(), firsts.len(), seconds.len(), amounts.len());
    if long && lines.len() <= MOST_LINES && FIGURES <= room {
        if first_unlawful(postings).is_some() {
            Some(Refusal::Fields)
        } else if unknown_line(kinds, lines).is_some() {
            Some(Refusal::Unknown)
        } else {
            None
        }
    } else {
        Some(Refusal::Sizes)
    }
}

// The books of a record that was handed over, posted from zeros, fill the first 64 numbers of the slice. The answer is 0, or the number of
// the first of the audit's refusals 3, 5 and 7 that applies, and the slice is as it was.
#[tactic(auto, unfolding(crate::specs::Figures::figures_slice), using(audit_input::proofs::Judgements::number_above))]
pub fn figures(
    kinds: &[u8],
    firsts: &[u8],
    seconds: &[u8],
    amounts: &[u32],
    lines: &[u16],
    out: &mut [i64],
) -> u8
    ensures value { result ≡ figures_code kinds.now firsts.now seconds.now amounts.now lines.now (length out.old) }
    ensures out_after { out.new ≡ figures_slice kinds.now firsts.now seconds.now amounts.now lines.now out.old }
{
    let postings = Postings {
        kinds,
        firsts,
        seconds,
        amounts,
    };
    if let Some(why) = figures_refusal(postings, lines, out.len()) {
        return why.number();
    }
    figures_of(postings, lines, out);
    0
}

// The books of site p's record fill the first 64 numbers of the slice.
fn site_figures(postings: Postings, records: Records, p: usize, out: &mut [i64])
    requires { AllPostable postings.kinds.now postings.firsts.now postings.seconds.now postings.amounts.now records.lines.now records.ends.now × (p < length records.ends.now) × (64 ≤ length out.old) }
    ensures { out.new ≡ numbers_of_site postings.entry.kinds.now postings.entry.firsts.now postings.entry.seconds.now postings.entry.amounts.now records.entry.lines.now records.entry.ends.now p ++ drop 64 out.old }
{
    figures_of(postings, records.record_of(p), out);
}

// The books of all records: the part of the slice from 64 p on is lent on for site p.
pub fn figures_all(postings: Postings, records: Records, out: &mut [i64])
    requires { AllPostable postings.kinds.now postings.firsts.now postings.seconds.now postings.amounts.now records.lines.now records.ends.now × (64 * length records.ends.now ≤ length out.old) }
    ensures { out.new ≡ numbers_of_all postings.entry.kinds.now postings.entry.firsts.now postings.entry.seconds.now postings.entry.amounts.now records.entry.lines.now records.entry.ends.now (length records.entry.ends.now) ++ drop (64 * length records.entry.ends.now) out.old }
{
    for p in 0..records.ends.len() {
        site_figures(postings, records, p, &mut out[64 * p..]);
    }
}
