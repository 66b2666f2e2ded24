// Records that were handed over: the postings and the lines in slices, whether the records agree, and a pair of postings that shows it where
// they do not. Rests on broadcast's lists and on posting.
#![tactic(auto)]

ghost use Rattle.std.specs.Prelude.{◌≡◌, ◌<◌, length};
ghost use Rattle.audit_rule.specs.Handed.{posting_at, start_of, record_of};
ghost use Rattle.audit_rule.specs.Needs.{Rising};

use posting::Posting;

// Postings by number, field by field, as they are handed over: a posting's kind, its accounts and its amount.
#[derive(Clone, Copy)]
pub struct Postings<'a> {
    pub kinds: &'a [u8],
    pub firsts: &'a [u8],
    pub seconds: &'a [u8],
    pub amounts: &'a [u32],
}

impl<'a> Postings<'a> {
    // The posting with number x.
    pub fn posting_at(self, x: usize) -> Posting
        requires { (x < length self.kinds.now) × (x < length self.firsts.now) × (x < length self.seconds.now) × (x < length self.amounts.now) }
        ensures { result ≡ posting_at self.entry.kinds.now self.entry.firsts.now self.entry.seconds.now self.entry.amounts.now x }
    {
        Posting {
            owner: 0,
            kind: self.kinds[x],
            a: self.firsts[x],
            b: self.seconds[x],
            amount: self.amounts[x],
        }
    }
}

// The records of sites, one behind the other: site p's lines end at `ends[p]`.
#[derive(Clone, Copy)]
pub struct Records<'a> {
    pub lines: &'a [u16],
    pub ends: &'a [usize],
}

impl<'a> Records<'a> {
    // Where site p's lines begin: where those of the site before it end.
    pub fn start_of(self, p: usize) -> usize
        requires { p < length self.ends.now }
        ensures { result ≡ start_of self.entry.ends.now p }
    {
        if p == 0 { 0 } else { self.ends[p - 1] }
    }

    // Site p's record.
    pub fn record_of(self, p: usize) -> &'a [u16]
        requires { Rising self.lines.now self.ends.now × (p < length self.ends.now) }
        ensures { result.now ≡ record_of self.entry.lines.now self.entry.ends.now p }
    {
        &self.lines[self.start_of(p)..self.ends[p]]
    }
}
