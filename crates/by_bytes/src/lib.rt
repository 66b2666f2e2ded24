// The field rule, the matrix, conflicts, C(m), effects and books with plain arguments: numbers, and tables and records as bytes.
// Rests on books, posting and sets. Each function takes any arguments: it tests them, and refuses by an answer.
#![tactic(auto)]

ghost use Rattle.std.specs.Prelude.{◌≡◌, ◌++◌, ◌≤◌, length, take, drop};
ghost use Rattle.sets.specs.Sets.{words};
ghost use Rattle.posting.specs.Kinds.{fields_ok, symmetric, has_fixed_pairs};
ghost use Rattle.posting.specs.Conflicts.{conflicting};
ghost use Rattle.books.specs.Effect.{effect};
ghost use Rattle.books.specs.Books.{four};
ghost use Rattle.books.specs.Bounds.{Room};
ghost use Rattle.by_bytes.specs.Answers.{answer, posting_of, product_fits, size_answer, roomy, figures_at, posted_on, effect_ok, effect_out, conflict_set_ok, conflict_set_out, books_ok, books_out, books_all_ok, books_all_out};

use books::{FIGURES, Figures};
use posting::Posting;
use sets::{POSTINGS, Set, WORDS};

mod bytes;

// The answers: done, and refused. Document 01's numbers for refusals end at 16, so 255 is none of them.
pub const DONE: u8 = 0;

pub const REFUSED: u8 = 255;

// The answer in place of a size: it is no size.
pub const NO_SIZE: u64 = 18_446_744_073_709_551_615;

const LARGEST: u64 = 9_223_372_036_854_775_807;

// How large figures may be so that one posting more overflows none.
const POSITION_LIMIT: u64 = 200_000_000_000_000;

const RATE_LIMIT: u64 = posting::RATE_LIMIT as u64;

const SUM_LIMIT: u64 = 4_000_000_000_000_000_000;

// A posting from its fields; who owns it plays no part here.
fn posting_of(kind: u8, a: u8, b: u8, amount: u32) -> Posting
    ensures { result ≡ posting_of kind a b amount }
{
    Posting {
        owner: 0,
        kind,
        a,
        b,
        amount,
    }
}

// Whether the fields are within the rule of refusal 9.
pub fn fields_ok(kind: u8, a: u8, b: u8, amount: u32) -> bool
    ensures { result ≡ fields_ok (posting_of kind a b amount) }
{
    posting_of(kind, a, b, amount).fields_ok()
}

// Whether the matrix is symmetric.
pub fn symmetric(matrix: u16) -> bool
    ensures { result ≡ symmetric matrix }
{
    posting::symmetric(matrix)
}

// Whether the matrix has the fixed pairs.
pub fn has_fixed_pairs(matrix: u16) -> bool
    ensures { result ≡ has_fixed_pairs matrix }
{
    posting::has_fixed_pairs(matrix)
}

// Whether two postings conflict: number m of kind i on accounts a and b, and number x of kind j on accounts c and d.
pub fn conflicting(
    matrix: u16,
    m: usize,
    i: u8,
    a: u8,
    b: u8,
    x: usize,
    j: u8,
    c: u8,
    d: u8,
) -> bool
    ensures { result ≡ conflicting matrix m (posting_of i a b 0) x (posting_of j c d 0) }
{
    let p = posting_of(i, a, b, 0);
    let q = posting_of(j, c, d, 0);
    posting::conflicting(matrix, m, p, x, q)
}

// Whether position × rate, and its negative, are numbers of an i64, told without a division (W4): where the two together have fewer than 64
// zeros before their first ones their product is 2^63 or more, and elsewhere it is a u64.
fn product_fits(position: i64, rate: i64) -> bool
    ensures { result ≡ product_fits position rate }
{
    let p = books::size(position);
    let q = books::size(rate);
    64 <= p.leading_zeros() + q.leading_zeros() && p * q <= LARGEST
}

// What a CALL adds to called; NO_SIZE if position × rate is no i64.
pub fn size_of_call(position: i64, rate: i64) -> u64
    ensures { result ≡ size_answer position rate }
{
    if product_fits(position, rate) {
        books::size_of_call(position, rate)
    } else {
        NO_SIZE
    }
}

// Whether the figures have room for one posting more.
fn has_room(s: Figures) -> bool
    ensures { result ≡ roomy s }
{
    books::size(s.position) <= POSITION_LIMIT
        && books::size(s.rate) <= RATE_LIMIT
        && books::size(s.called) <= SUM_LIMIT
        && books::size(s.settled) <= SUM_LIMIT
}

// What a posting does to the figures of an account: nothing if it does not touch it.
fn effect_on(p: Posting, account: u8, s: Figures) -> Figures
    requires { Room s }
    ensures { result ≡ effect p account s }
{
    if p.touches(account) {
        books::change(p, account, s)
    } else {
        s
    }
}

// A posting has its effect on the figures in the first four numbers of the slice, if they have room.
fn post_on(p: Posting, account: u8, figures: &mut [i64]) -> u8
    requires { 4 ≤ length figures.old }
    ensures value { result ≡ answer (roomy (figures_at figures.old)) }
    ensures figures_after { figures.new ≡ posted_on p account figures.old }
{
    let position = figures[0];
    let rate = figures[1];
    let called = figures[2];
    let settled = figures[3];
    let s = Figures {
        position,
        rate,
        called,
        settled,
    };
    if has_room(s) {
        let t = effect_on(p, account, s);
        books::put(t, 0, figures);
        return DONE;
    }
    REFUSED
}

// A posting has its effect on the figures of an account, the first four numbers of the slice: position, rate, called, settled.
// Refused: a posting outside the field rule, a slice shorter than four, figures without room for one posting more.
pub fn effect(kind: u8, a: u8, b: u8, amount: u32, account: u8, figures: &mut [i64]) -> u8
    ensures value { result ≡ answer (effect_ok (posting_of kind a b amount) figures.old) }
    ensures figures_after { figures.new ≡ effect_out (posting_of kind a b amount) account figures.old }
{
    if figures.len() < 4 {
        return REFUSED;
    }
    let p = posting_of(kind, a, b, amount);
    if p.fields_ok() {
        return post_on(p, account, figures);
    }
    REFUSED
}

// The words of a set fill the first words of the slice.
fn put_words(s: Set, out: &mut [u64])
    requires { words ≤ length out.old }
    ensures { out.new ≡ take words s.words ++ drop words out.old }
{
    out[..WORDS].copy_from_slice(&s.words);
}

// C(m) of a table, given as rows of bytes (bytes.rt), fills the first words of the slice.
// Refused: no whole rows or too many, an m that is no row, a slice without a place for each word.
pub fn conflict_set(matrix: u16, rows: &[u8], m: usize, out: &mut [u64]) -> u8
    ensures value { result ≡ answer (conflict_set_ok rows.now m out.old) }
    ensures out_after { out.new ≡ conflict_set_out matrix rows.now m out.old }
{
    if bytes::whole(rows.len(), bytes::ROW, POSTINGS) {
        if rows.len() / bytes::ROW <= m {
            return REFUSED;
        }
        if out.len() < WORDS {
            return REFUSED;
        }
        let table = bytes::table_of(rows);
        let set = table.conflict_set(matrix, m);
        put_words(set, out);
        return DONE;
    }
    REFUSED
}

// The books of a record, given as a byte for each posting number, from zeros, fill the first 64 numbers of the slice.
// Refused: no whole rows or too many, a row outside the field rule, a record past the capacity, a number that is no row, a
// slice shorter than 64.
pub fn books(rows: &[u8], delivered: &[u8], out: &mut [i64]) -> u8
    ensures value { result ≡ answer (books_ok rows.now delivered.now out.old) }
    ensures out_after { out.new ≡ books_out rows.now delivered.now out.old }
{
    if out.len() < FIGURES {
        return REFUSED;
    }
    if bytes::table_ok(rows) {
        let lines = bytes::record_of(delivered);
        if bytes::record_ok(lines, rows.len() / bytes::ROW) {
            let table = bytes::table_of(rows);
            let opening = books::blank();
            books::books(table, lines, opening, out);
            return DONE;
        }
        return REFUSED;
    }
    REFUSED
}

// The books of sites, whose records come one after another (bytes.rt), from zeros: those of site s fill the 64 numbers of the
// slice from 64s on. Refused: what the books of a record refuse, no whole records, more than seven.
pub fn books_all(rows: &[u8], delivered: &[u8], out: &mut [i64]) -> u8
    ensures value { result ≡ answer (books_all_ok rows.now delivered.now out.old) }
    ensures out_after { out.new ≡ books_all_out rows.now delivered.now out.old }
{
    let n = delivered.len() / bytes::RECORD;
    if out.len() / FIGURES < n {
        return REFUSED;
    }
    if bytes::table_ok(rows) {
        if bytes::sites_ok(delivered, rows.len() / bytes::ROW) {
            let table = bytes::table_of(rows);
            let records = bytes::records_of(delivered);
            let opening = books::blank();
            books::books_all(table, records, n, opening, out);
            return DONE;
        }
        return REFUSED;
    }
    REFUSED
}
