// The books: what postings do to the sixteen accounts, in exact sums, and the books of records in a lent slice.
// Rests on posting, on ten_thousandths for calls, on masks and sets for small things.
#![tactic(auto)]

ghost use Rattle.std.specs.Prelude.{◌≡◌, cond, ◌++◌, ℕ, ◌+◌, ◌*◌, ◌<◌, ◌≤◌, eqb, nat_abs, ◌*ℤ◌, length, take, drop};
ghost use Rattle.posting.specs.Records.{numbers_of};
ghost use Rattle.books.specs.Effect.{size_of_call, on_trade, on_rate, on_call, on_net, change};
ghost use Rattle.books.specs.Books.{books, four, numbers, record_no, numbers_of_sites, figures_on, sheet_of, blank};
ghost use Rattle.books.specs.Bounds.{Room, Roomy, Opening, Postable};

use posting::{Posting, Record, Table, net_of_all};
use sets::wide;

// How many accounts there are, and how many sites there can be.
pub const ACCOUNTS: usize = posting::ACCOUNTS as usize;

pub const SITES: usize = masks::SITES as usize;

// How many numbers the books of a record have.
pub const FIGURES: usize = 4 * ACCOUNTS;

// The four numbers of an account.
#[derive(Clone, Copy, Default, PartialEq, Eq)]
pub struct Figures {
    pub position: i64,
    pub rate: i64,
    pub called: i64,
    pub settled: i64,
}

// The figures of all accounts.
#[derive(Clone, Copy, PartialEq, Eq)]
pub struct Sheet {
    pub accounts: [Figures; ACCOUNTS],
}

// The records of the sites, by number.
#[derive(Clone, Copy, PartialEq, Eq)]
pub struct Records {
    pub sites: [Record; SITES],
}

// A sheet of zeros, to post from.
pub fn blank() -> Sheet
    ensures { result ≡ sheet_of blank }
{
    Sheet {
        accounts: [Figures::default(); ACCOUNTS],
    }
}

// The size of a signed number, also of the least one.
pub fn size(x: i64) -> u64
    ensures { result ≡ nat_abs x }
{
    x.unsigned_abs()
}

// Where the position is above zero, the size of position × rate ÷ 10,000, rounded up; elsewhere nothing.
pub fn size_of_call(position: i64, rate: i64) -> u64
    requires { nat_abs (position *ℤ rate) < 9223372036854775808 }
    ensures { result ≡ size_of_call position rate }
{
    if 0 < position {
        ten_thousandths::rounded_up(size(position * rate))
    } else {
        0
    }
}

// TRADE at account k: the position of a rises, of b falls, by the amount.
pub fn trade(p: Posting, k: u8, s: Figures) -> Figures
    requires { Room s }
    ensures { result ≡ on_trade p k s }
{
    let amount = i64::from(p.amount);
    let position = if k == p.a {
        s.position + amount
    } else {
        s.position - amount
    };
    Figures { position, ..s }
}

// RATE: the rate becomes the amount.
pub fn rate(amount: u32, s: Figures) -> Figures
    ensures { result ≡ on_rate amount s }
{
    Figures {
        rate: i64::from(amount),
        ..s
    }
}

// CALL: called rises by the size of the call.
pub fn call(s: Figures) -> Figures
    requires { Room s }
    ensures { result ≡ on_call s }
{
    let size = size_of_call(s.position, s.rate) as i64;
    Figures {
        called: s.called + size,
        ..s
    }
}

// NET: settled rises by the position (signed), which becomes 0.
pub fn net(s: Figures) -> Figures
    requires { Room s }
    ensures { result ≡ on_net s }
{
    Figures {
        position: 0,
        settled: s.settled + s.position,
        ..s
    }
}

// What a posting does to the figures of an account k that it touches.
pub fn change(p: Posting, k: u8, s: Figures) -> Figures
    requires { Room s }
    ensures { result ≡ change p.kind p k s }
{
    match p.kind {
        posting::TRADE => trade(p, k, s),
        posting::RATE => rate(p.amount, s),
        posting::CALL => call(s),
        posting::NET => net(s),
        _ => s,
    }
}

// What a posting does to the figures of its account b, if that is not a.
pub fn change_b(p: Posting, s: Figures) -> Figures
    requires { Room s }
    ensures { result ≡ cond (eqb p.a p.b) s (change p.kind p p.b s) }
{
    if p.a == p.b { s } else { change(p, p.b, s) }
}

// Every account is netted.
pub fn net_all(mut sheet: Sheet) -> Sheet
    requires { Roomy (figures_on sheet) }
    ensures { result ≡ sheet_of (λ k. on_net (figures_on sheet k)) }
{
    for s in sheet.accounts.iter_mut() {
        *s = net(*s);
    }
    sheet
}

// The sheet of a record: its postings posted line by line on the opening figures. A posting touches its accounts a and b, or all of them.
// Where it touches a and b the sheet is changed in place, so that it is not copied for each line.
pub fn posted(table: Table, delivered: Record, opening: Sheet) -> Sheet
    requires { Postable table delivered × Opening (figures_on opening) }
    ensures { result ≡ sheet_of (books (figures_on opening) table (numbers_of delivered)) }
{
    let mut sheet = opening;
    let count = delivered.count;
    for i in 0..count {
        let m = wide(delivered.numbers[i]);
        let p = table.rows[m];
        if net_of_all(p.kind, p.a, p.b) {
            sheet = net_all(sheet);
        } else {
            let a = wide(p.a);
            let s = sheet.accounts[a];
            let t = change(p, p.a, s);
            sheet.accounts[a] = t;
            let b = wide(p.b);
            let u = sheet.accounts[b];
            let v = change_b(p, u);
            sheet.accounts[b] = v;
        }
    }
    sheet
}

// The four numbers of an account go to a place of the slice.
pub fn put(s: Figures, at: usize, out: &mut [i64])
    requires { at + 4 ≤ length out.old }
    ensures { out.new ≡ take at out.old ++ four s ++ drop (at + 4) out.old }
{
    out[at] = s.position;
    out[at + 1] = s.rate;
    out[at + 2] = s.called;
    out[at + 3] = s.settled;
}

// The first 64 numbers of the slice become the sheet's.
pub fn fill(sheet: Sheet, out: &mut [i64])
    requires { 64 ≤ length out.old }
    ensures { out.new ≡ numbers (figures_on sheet) ++ drop 64 out.old }
{
    for (k, s) in sheet.accounts.iter().enumerate() {
        put(*s, 4 * k, out);
    }
}

// The books of a record fill the first 64 numbers of the slice; what lies beyond stays.
pub fn books(table: Table, delivered: Record, opening: Sheet, out: &mut [i64])
    requires { Postable table delivered × Opening (figures_on opening) × (64 ≤ length out.old) }
    ensures { out.new ≡ numbers (books (figures_on opening) table (numbers_of delivered)) ++ drop 64 out.old }
{
    fill(posted(table, delivered, opening), out);
}

// The books of the first n sites: the part of the slice from 64s is lent on for site s.
pub fn books_all(table: Table, records: Records, n: usize, opening: Sheet, out: &mut [i64])
    requires { ((s : ℕ) → s < n → Postable table (record_no records s)) × Opening (figures_on opening) × (n ≤ 7) × (64 * n ≤ length out.old) }
    ensures { out.new ≡ numbers_of_sites n (figures_on opening) table records ++ drop (64 * n) out.old }
{
    for s in 0..n {
        let delivered = records.sites[s];
        let from = 64 * s;
        books(table, delivered, opening, &mut out[from..]);
    }
}
