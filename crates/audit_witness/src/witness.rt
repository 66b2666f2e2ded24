// The words of a pair that shows that records do not agree, written into a lent slice: a place past it is counted and nothing is put there.
// Rests on audit_input for the answer, on audit_files for kinds in words, on audit_pair for places in a record, on audit_rule for postings and records, on posting, amounts and printer.
ghost use Rattle.std.specs.Prelude.{◌≡◌, ◌<◌, ◌≤◌, ◌++◌, length};
ghost use Rattle.printer.specs.Puts.{Put};
ghost use Rattle.audit_pair.specs.Pair.{Fields};
ghost use Rattle.audit_files.specs.Written.{kind_word};
ghost use Rattle.audit_witness.specs.Witness.{posting_words, trade_words, rate_words, account_words, field_words, shared_account, shared_accounts, line_number, stands_words, booked_words, ahead_words, without_words, finding_words, before_words, pair_words, witness_words};
ghost use Rattle.audit_witness.specs.Needs.{Filed, Told};

use amounts::put_units;
use audit_input::Answer;
use audit_pair::{CROSSED, MISSING, place_of};
use audit_rule::{Postings, Records};
use posting::{ACCOUNTS, CALL, Posting, RATE, TRADE, net_of_all};
use printer::print::{put_number, put_text};

// What is audited, as its files hold it: the postings, the records of sites, and the number of each site's first line that is no heading.
#[derive(Clone, Copy)]
pub struct Input<'a> {
    pub postings: Postings<'a>,
    pub records: Records<'a>,
    pub tops: &'a [u8],
}

impl<'a> Input<'a> {
    // The line of site p's file that names a posting.
    fn line_number(self, p: usize, x: usize) -> usize
        requires { Filed self.records.lines.now self.records.ends.now self.tops.now × (p < length self.records.ends.now) × (x < 65_536) }
        ensures { result ≡ line_number self.entry.records.lines.now self.entry.records.ends.now self.entry.tops.now p x }
    {
        usize::from(self.tops[p]) + place_of(self.records.record_of(p), x as u16)
    }
}

// A kind's word.
fn put_kind(kind: u8, at: usize, out: &mut [u8]) -> usize
    ensures { Put (kind_word kind) at out.old out.new result }
{
    match kind {
        TRADE => put_text(b"TRADE", at, out),
        RATE => put_text(b"RATE", at, out),
        CALL => put_text(b"CALL", at, out),
        _ => put_text(b"NET", at, out),
    }
}

// A posting by its kind and number.
pub fn put_posting(kinds: &[u8], x: usize, at: usize, out: &mut [u8]) -> usize
    requires { x < length kinds.now }
    ensures { Put (posting_words kinds.now x) at out.old out.new result }
{
    let p = put_kind(kinds[x], at, out);
    let q = put_text(b" ", p, out);
    put_number(x, q, out)
}

// The fields of a trade.
fn put_trade(a: u8, b: u8, amount: u32, at: usize, out: &mut [u8]) -> usize
    ensures { Put (trade_words a b amount) at out.old out.new result }
{
    let p = put_text(b": accounts ", at, out);
    let q = put_number(usize::from(a), p, out);
    let r = put_text(b" and ", q, out);
    let s = put_number(usize::from(b), r, out);
    let t = put_text(b", ", s, out);
    let u = put_units(amount as usize, t, out);
    put_text(b".\n", u, out)
}

// The fields of a rate.
fn put_rate(a: u8, amount: u32, at: usize, out: &mut [u8]) -> usize
    ensures { Put (rate_words a amount) at out.old out.new result }
{
    let p = put_text(b": account ", at, out);
    let q = put_number(usize::from(a), p, out);
    let r = put_text(b", ", q, out);
    let s = put_number(amount as usize, r, out);
    put_text(b" per 10,000.\n", s, out)
}

// One account.
fn put_account(a: u8, at: usize, out: &mut [u8]) -> usize
    ensures { Put (account_words a) at out.old out.new result }
{
    let p = put_text(b": account ", at, out);
    let q = put_number(usize::from(a), p, out);
    put_text(b".\n", q, out)
}

// A posting's accounts and its amount.
#[tactic(auto, unfolding(crate::specs::Witness::field_words))]
fn put_fields(p: Posting, at: usize, out: &mut [u8]) -> usize
    ensures { Put (field_words p) at out.old out.new result }
{
    if net_of_all(p.kind, p.a, p.b) {
        return put_text(b": every account.\n", at, out);
    }
    match p.kind {
        TRADE => put_trade(p.a, p.b, p.amount, at, out),
        RATE => put_rate(p.a, p.amount, at, out),
        _ => put_account(p.a, at, out),
    }
}

// An account, if two postings touch it both.
fn put_shared(p: Posting, q: Posting, k: u8, at: usize, out: &mut [u8]) -> usize
    ensures { Put (shared_account p q k) at out.old out.new result }
{
    if p.touches(k) && q.touches(k) {
        let place = put_text(b" ", at, out);
        put_number(usize::from(k), place, out)
    } else {
        at
    }
}

// The accounts that two postings touch both.
fn put_all_shared(p: Posting, q: Posting, at: usize, out: &mut [u8]) -> usize
    ensures { Put (shared_accounts p q 16) at out.old out.new result }
{
    let mut place = at;
    for k in 0..ACCOUNTS {
        place = put_shared(p, q, k, place, out);
    }
    place
}

// A posting with its fields.
fn put_told(kinds: &[u8], x: usize, p: Posting, at: usize, out: &mut [u8]) -> usize
    requires { x < length kinds.now }
    ensures { Put (posting_words kinds.now x ++ field_words p) at out.old out.new result }
{
    let place = put_posting(kinds, x, at, out);
    put_fields(p, place, out)
}

// The two postings, and the accounts on which they conflict.
fn put_pair(postings: Postings, x: usize, y: usize, at: usize, out: &mut [u8]) -> usize
    requires { Fields postings.kinds.now postings.firsts.now postings.seconds.now postings.amounts.now × (x < length postings.kinds.now) × (y < length postings.kinds.now) }
    ensures { Put (pair_words postings.entry.kinds.now postings.entry.firsts.now postings.entry.seconds.now postings.entry.amounts.now x y) at out.old out.new result }
{
    let p = postings.posting_at(x);
    let q = postings.posting_at(y);
    let a = put_told(postings.kinds, x, p, at, out);
    let b = put_told(postings.kinds, y, q, a, out);
    let c = put_text(b"They conflict on these accounts:", b, out);
    let d = put_all_shared(p, q, c, out);
    put_text(b".\n", d, out)
}

// A posting and the line of a site's file that names it.
fn put_stands(input: Input, p: usize, x: usize, at: usize, out: &mut [u8]) -> usize
    requires { Filed input.records.lines.now input.records.ends.now input.tops.now × (length input.postings.kinds.now ≤ 65_536) × (p < length input.records.ends.now) × (x < length input.postings.kinds.now) }
    ensures { Put (stands_words input.entry.postings.kinds.now input.entry.records.lines.now input.entry.records.ends.now input.entry.tops.now p x) at out.old out.new result }
{
    let line = input.line_number(p, x);
    let a = put_posting(input.postings.kinds, x, at, out);
    let b = put_text(b" (line ", a, out);
    let c = put_number(line, b, out);
    put_text(b")", c, out)
}

// What a site booked, and its line.
fn put_booked(input: Input, p: usize, x: usize, at: usize, out: &mut [u8]) -> usize
    requires { Filed input.records.lines.now input.records.ends.now input.tops.now × (length input.postings.kinds.now ≤ 65_536) × (p < length input.records.ends.now) × (x < length input.postings.kinds.now) }
    ensures { Put (booked_words input.entry.postings.kinds.now input.entry.records.lines.now input.entry.records.ends.now input.entry.tops.now p x) at out.old out.new result }
{
    let a = put_text(b"Site ", at, out);
    let b = put_number(p, a, out);
    let c = put_text(b" booked ", b, out);
    put_stands(input, p, x, c, out)
}

// A site has one posting ahead of another.
fn put_ahead(input: Input, p: usize, x: usize, y: usize, at: usize, out: &mut [u8]) -> usize
    requires { Filed input.records.lines.now input.records.ends.now input.tops.now × (length input.postings.kinds.now ≤ 65_536) × (p < length input.records.ends.now) × (x < length input.postings.kinds.now) × (y < length input.postings.kinds.now) }
    ensures { Put (ahead_words input.entry.postings.kinds.now input.entry.records.lines.now input.entry.records.ends.now input.entry.tops.now p x y) at out.old out.new result }
{
    let a = put_booked(input, p, x, at, out);
    let b = put_text(b" ahead of ", a, out);
    let c = put_stands(input, p, y, b, out);
    put_text(b".\n", c, out)
}

// A site has one posting without another.
fn put_without(input: Input, p: usize, x: usize, y: usize, at: usize, out: &mut [u8]) -> usize
    requires { Filed input.records.lines.now input.records.ends.now input.tops.now × (length input.postings.kinds.now ≤ 65_536) × (p < length input.records.ends.now) × (x < length input.postings.kinds.now) × (y < length input.postings.kinds.now) }
    ensures { Put (without_words input.entry.postings.kinds.now input.entry.records.lines.now input.entry.records.ends.now input.entry.tops.now p x y) at out.old out.new result }
{
    let a = put_booked(input, p, x, at, out);
    let b = put_text(b" without ", a, out);
    let c = put_posting(input.postings.kinds, y, b, out);
    put_text(b".\n", c, out)
}

// What is found of the pair.
fn put_finding(input: Input, r: Answer, at: usize, out: &mut [u8]) -> usize
    requires { Filed input.records.lines.now input.records.ends.now input.tops.now × Told input.postings.kinds.now input.records.ends.now r }
    ensures { Put (finding_words input.entry.postings.kinds.now input.entry.records.lines.now input.entry.records.ends.now input.entry.tops.now r) at out.old out.new result }
{
    let x = r.first;
    let y = r.second;
    match r.code {
        CROSSED => {
            let a = put_ahead(input, r.here, x, y, at, out);
            put_ahead(input, r.there, y, x, a, out)
        }
        MISSING => {
            let a = put_without(input, r.here, y, x, at, out);
            put_ahead(input, r.there, x, y, a, out)
        }
        _ => {
            let a = put_without(input, r.here, x, y, at, out);
            let b = put_without(input, r.there, y, x, a, out);
            put_text(b"No site booked both.\n", b, out)
        }
    }
}

// What agrees.
fn put_before(tops: &[u8], r: Answer, at: usize, out: &mut [u8]) -> usize
    requires { (r.site < length tops.now) × (r.line ≤ 458_759) }
    ensures { Put (before_words tops.now r) at out.old out.new result }
{
    let site = r.site;
    let line = usize::from(tops[site]) + r.line;
    let a = put_text(b"All that was read ahead of site ", at, out);
    let b = put_number(site, a, out);
    let c = put_text(b"'s line ", b, out);
    let d = put_number(line, c, out);
    put_text(
        b" agrees: the sites before it whole, and its own lines above. With that line the records do not agree.\n",
        d,
        out,
    )
}

// The pair that shows that the records do not agree.
pub fn put_witness(input: Input, r: Answer, at: usize, out: &mut [u8]) -> usize
    requires { Filed input.records.lines.now input.records.ends.now input.tops.now × Told input.postings.kinds.now input.records.ends.now r × Fields input.postings.kinds.now input.postings.firsts.now input.postings.seconds.now input.postings.amounts.now }
    ensures { Put (witness_words input.entry.postings.kinds.now input.entry.postings.firsts.now input.entry.postings.seconds.now input.entry.postings.amounts.now input.entry.records.lines.now input.entry.records.ends.now input.entry.tops.now r) at out.old out.new result }
{
    let a = put_finding(input, r, at, out);
    let b = put_pair(input.postings, r.first, r.second, a, out);
    put_before(input.tops, r, b, out)
}
