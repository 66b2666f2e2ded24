// C(m) from an index of the postings offered, by row and kind: at most eight sets are joined, however many postings there are. A row stands
// for an account, the last for all. Rests on arrays, posting and sets. The index is beside the board and not of it.
#![tactic(auto)]

ghost use Rattle.std.specs.Prelude.{◌<◌, ◌≡◌, true};
ghost use Rattle.sets.specs.Sets.{capacity};
ghost use Rattle.posting.specs.Kinds.{kinds, accounts_ok};
ghost use Rattle.arrays.specs.Layout.{index_rows, kind_of};
ghost use Rattle.index.specs.Index.{row_for, joined_if, conflicts_in, entered_to, indexing};

use arrays::{BY_KIND, BYTES, FROM, INDEX_ROWS, INTO, KIND, SETS, add_to, load};
use posting::{ACCOUNTS, KINDS, matrix_entry, net_of_all};
use sets::Set;

// The row of all, behind those of the accounts.
const EVERY_ROW: u8 = ACCOUNTS;

// The row to look in for an account of a posting, which nets every account or not; what is no account has no row.
fn row_for(all: bool, account: u8) -> u8
    ensures { result ≡ row_for all account }
{
    if all {
        return EVERY_ROW;
    }
    if account < ACCOUNTS {
        return account;
    }
    INDEX_ROWS
}

// The slot of a row and kind.
fn slot_of(row: u8, kind: u8) -> usize
    requires { (row < index_rows) × (kind < kinds) }
    ensures { result ≡ kind_of row kind }
{
    let place = row * KINDS + kind;
    BY_KIND + place as usize
}

// A set with the postings of a row and kind, if so.
fn join_kind(s: Set, words: &[u64; SETS], row: u8, kind: u8, so: bool) -> Set
    requires { kind < kinds }
    ensures { result ≡ joined_if s words.now row kind so }
{
    if so {
        if INDEX_ROWS <= row {
            return s;
        }
        let slot = slot_of(row, kind);
        let more = load(words, slot);
        return s.join(more);
    }
    s
}

// C(m): m with all offered postings that conflict with it.
pub fn conflicts(words: &[u64; SETS], bytes: &[u8; BYTES], matrix: u16, m: usize) -> Set
    requires { m < capacity }
    ensures { result ≡ conflicts_in words.now bytes.now matrix m }
{
    let kind = bytes[KIND + m];
    let a = bytes[FROM + m];
    let b = bytes[INTO + m];
    let all = net_of_all(kind, a, b);
    let first = row_for(all, a);
    let second = row_for(all, b);
    let mut s = Set::empty();
    for k in 0..KINDS {
        let so = matrix_entry(matrix, kind, k);
        s = join_kind(s, words, first, k, so);
        s = join_kind(s, words, second, k, so);
    }
    s.with(m)
}

// Posting m of a kind joins every row.
fn enter_all(words: &mut [u64; SETS], m: usize, kind: u8)
    requires { (m < capacity) × (kind < kinds) }
    ensures { words.new ≡ entered_to words.old m kind index_rows }
{
    for row in 0..INDEX_ROWS {
        let slot = slot_of(row, kind);
        add_to(words, slot, m);
    }
}

// Posting m joins the index: every row if it nets every account, else those of its accounts and that of all.
pub fn enter(words: &mut [u64; SETS], m: usize, kind: u8, a: u8, b: u8)
    requires { (m < capacity) × (kind < kinds) × (accounts_ok kind a b ≡ true) }
    ensures { words.new ≡ indexing words.old m kind a b }
{
    if net_of_all(kind, a, b) {
        enter_all(words, m, kind);
        return;
    }
    let first = slot_of(a, kind);
    let second = slot_of(b, kind);
    let every = slot_of(EVERY_ROW, kind);
    add_to(words, first, m);
    add_to(words, second, m);
    add_to(words, every, m);
}
