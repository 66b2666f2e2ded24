// Postings, the table of those offered, records, and which postings conflict.
// Rests on sets.
#![tactic(auto)]

ghost use Rattle.std.specs.Prelude.{◌≡◌, not, ◌&&◌, ◌<◌, ◌/◌, ◌%◌};
ghost use Rattle.posting.specs.Kinds.{in_row, net_of_all, accounts_ok, fields_ok, matrix_entry, turned_alike, symmetric, pair_ok, has_fixed_pairs};
ghost use Rattle.posting.specs.Conflicts.{row, offered_by, touches, shares, conflicting, conflict_set};
ghost use Rattle.posting.specs.Touched.{touches_some};
ghost use Rattle.posting.specs.Records.{empty_record, contains, append};

use sets::{POSTINGS, Set};

// The kinds: numbers, since a posting may hold any byte as its kind, and definitions and tests give it one that is no kind.
pub const TRADE: u8 = 0;

pub const RATE: u8 = 1;

pub const CALL: u8 = 2;

pub const NET: u8 = 3;

pub const KINDS: u8 = 4;

pub const PAIRS: u8 = 16;

// Accounts are 0 to 15.
pub const ACCOUNTS: u8 = 16;

// What stands in place of both accounts of a NET where every account is meant.
pub const EVERY_ACCOUNT: u8 = 255;

// The largest amount of a TRADE, and the largest rate of a RATE.
pub const TRADE_LIMIT: u32 = 1_000_000_000;

pub const RATE_LIMIT: u32 = 10_000;

// The pairs of kinds that don't commute on a shared account, both ways round: row i, column j.
pub const FIXED_PAIRS: [[bool; 4]; 4] = [
    [false, false, true, true], // 0-2, 0-3
    [false, true, true, false], // 1-1, 1-2
    [true, true, false, true], // 2-0, 2-1, 2-3
    [true, false, true, false], // 3-0, 3-2
];

// A row of the table: the site that offered it, then the fields of document 01's table of kinds.
#[derive(Clone, Copy, Default, PartialEq, Eq)]
pub struct Posting {
    pub owner: u8,
    pub kind: u8,
    pub a: u8,
    pub b: u8,
    pub amount: u32,
}

// The postings offered, by number; rows from the count on hold nothing.
#[derive(Clone, Copy, PartialEq, Eq)]
pub struct Table {
    pub count: usize,
    pub rows: [Posting; POSTINGS],
}

// Posting numbers in order; places from the count on hold nothing.
#[derive(Clone, Copy, PartialEq, Eq)]
pub struct Record {
    pub count: usize,
    pub numbers: [u8; POSTINGS],
}

// Whether accounts and amount are as the kind's row of the table says; what is no kind has no row.
fn in_row(kind: u8, a: u8, b: u8, amount: u32) -> bool
    ensures { result ≡ in_row kind a b amount }
{
    match kind {
        TRADE => a != b && (1..=TRADE_LIMIT).contains(&amount),
        RATE => a == b && amount <= RATE_LIMIT,
        CALL | NET => a == b && amount == 0,
        _ => false,
    }
}

// Whether it is a NET of every account.
pub fn net_of_all(kind: u8, a: u8, b: u8) -> bool
    ensures { result ≡ net_of_all kind a b }
{
    a == EVERY_ACCOUNT && b == EVERY_ACCOUNT && kind == NET
}

// Whether both are accounts, or those of a NET of every account.
fn accounts_ok(kind: u8, a: u8, b: u8) -> bool
    ensures { result ≡ accounts_ok kind a b }
{
    net_of_all(kind, a, b) || (a < ACCOUNTS && b < ACCOUNTS)
}

impl Posting {
    // Whether the accounts may stand for the kind, and all is within the kind's row of the table.
    pub fn fields_ok(self) -> bool
        ensures { result ≡ fields_ok self }
    {
        accounts_ok(self.kind, self.a, self.b) && in_row(self.kind, self.a, self.b, self.amount)
    }

    // Whether the posting touches an account; what is no account is touched by none.
    pub fn touches(self, account: u8) -> bool
        ensures { result ≡ touches self account }
    {
        account < ACCOUNTS
            && (account == self.a || account == self.b || net_of_all(self.kind, self.a, self.b))
    }

    // Whether the posting touches some account.
    fn touches_some(self) -> bool
        ensures { result ≡ touches_some self }
    {
        net_of_all(self.kind, self.a, self.b) || self.a < ACCOUNTS || self.b < ACCOUNTS
    }

    // Whether some account is touched by both.
    pub fn shares(self, other: Posting) -> bool
        ensures { result ≡ shares self other }
    {
        if net_of_all(self.kind, self.a, self.b) {
            other.touches_some()
        } else {
            other.touches(self.a) || other.touches(self.b)
        }
    }
}

// Whether the matrix says yes for two kinds; what is no kind gets no.
pub fn matrix_entry(matrix: u16, i: u8, j: u8) -> bool
    ensures { result ≡ matrix_entry matrix i j }
{
    i < KINDS && j < KINDS && (matrix >> (4 * i + j)) % 2 == 1
}

// Whether row i, column j is as row j, column i.
fn turned_alike(matrix: u16, i: u8, j: u8) -> bool
    ensures { result ≡ turned_alike matrix i j }
{
    matrix_entry(matrix, i, j) == matrix_entry(matrix, j, i)
}

// Whether all pairs of kinds are so.
pub fn symmetric(matrix: u16) -> bool
    ensures { result ≡ symmetric matrix }
{
    (0..PAIRS).all(|n| turned_alike(matrix, n / KINDS, n % KINDS))
}

// Whether the matrix says yes for kinds i and j, if they are a fixed pair.
fn pair_ok(matrix: u16, i: u8, j: u8) -> bool
    requires i_kind { i < 4 }
    requires j_kind { j < 4 }
    ensures { result ≡ pair_ok matrix i j }
{
    !FIXED_PAIRS[usize::from(i)][usize::from(j)] || matrix_entry(matrix, i, j)
}

// Whether the matrix says yes for every fixed pair.
pub fn has_fixed_pairs(matrix: u16) -> bool
    ensures { result ≡ has_fixed_pairs matrix }
{
    (0..PAIRS).all(|n| pair_ok(matrix, n / KINDS, n % KINDS))
}

// Whether postings p and q, with numbers m and x, conflict.
pub fn conflicting(matrix: u16, m: usize, p: Posting, x: usize, q: Posting) -> bool
    ensures { result ≡ conflicting matrix m p x q }
{
    p.shares(q) && matrix_entry(matrix, p.kind, q.kind) && m != x
}

// Whether number m is below the count of postings offered, and the capacity.
pub fn offered_by(count: usize, m: usize) -> bool
    ensures { result ≡ offered_by count m }
{
    m < count && m < POSTINGS
}

// Whether posting q with number x is offered and conflicts with posting p with number m.
fn offered_conflict(count: usize, matrix: u16, m: usize, p: Posting, x: usize, q: Posting) -> bool
    ensures { result ≡ offered_by count x && conflicting matrix m p x q }
{
    offered_by(count, x) && conflicting(matrix, m, p, x, q)
}

impl Table {
    // The row of number m; past the capacity, a row of zeros.
    pub fn row(self, m: usize) -> Posting
        ensures { result ≡ row self m }
    {
        self.rows.get(m).copied().unwrap_or_default()
    }

    // C(m): m with all offered postings that conflict with it.
    pub fn conflict_set(self, matrix: u16, m: usize) -> Set
        ensures { result ≡ conflict_set matrix self m }
    {
        let p = self.row(m);
        let mut s = Set::empty();
        for (x, q) in self.rows.iter().enumerate() {
            s = s.with_if(x, offered_conflict(self.count, matrix, m, p, x, *q));
        }
        s.with(m)
    }
}

impl Record {
    pub fn empty() -> Record
        ensures { result ≡ empty_record }
    {
        Record {
            count: 0,
            numbers: [0; POSTINGS],
        }
    }

    // Whether m is in the record.
    pub fn contains(self, m: usize) -> bool
        ensures { result ≡ contains self m }
    {
        self.numbers
            .iter()
            .take(self.count)
            .any(|number| m == usize::from(*number))
    }

    // The record with m at its end; a full record, or a number past the capacity, leaves it as it is.
    pub fn append(mut self, m: usize) -> Record
        ensures { result ≡ append self m }
    {
        if self.count < POSTINGS && m < POSTINGS {
            self.numbers[self.count] = m as u8;
            self.count += 1;
        }
        self
    }
}
