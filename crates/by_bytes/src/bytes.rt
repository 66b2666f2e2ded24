// Tables and records read from bytes. A row: owner, kind, a, b, a byte each, and the amount in four, the highest first.
// Rests on books, posting and sets. A posting number is a byte. Past the end of the bytes zeros are read.
ghost use Rattle.std.specs.Prelude.{◌≡◌, ◌+◌, ◌*◌, ◌<◌, ◌≤◌, length};
ghost use Rattle.sets.specs.Sets.{capacity};
ghost use Rattle.by_bytes.specs.Bytes.{byte_at, amount_at, row_at, table_of, record_at, record_of_bytes, count_at, record_size, site_count, site_record, records_of, whole, rows_ok, table_ok, record_ok, each_ok, sites_ok};

use books::{Records, SITES};
use posting::{Posting, Record, Table};
use sets::POSTINGS;

// How many bytes a row has, and how many the record of a site: its count, then a place for each number.
pub const ROW: usize = 8;

pub const RECORD: usize = COUNT + POSTINGS;

// A count may be the capacity, which does not fit a byte.
const COUNT: usize = 2;

// The byte at a place; past the end, 0.
fn byte_at(bytes: &[u8], i: usize) -> u8
    ensures { result ≡ byte_at bytes.now i }
{
    bytes.get(i).copied().unwrap_or(0)
}

// Four bytes as a number, the highest first.
fn number(x: u8, y: u8, z: u8, w: u8) -> u32
    ensures { result ≡ ((x * 256 + y) * 256 + z) * 256 + w }
{
    u32::from_be_bytes([x, y, z, w])
}

// The amount in four bytes from a place on.
fn amount_at(bytes: &[u8], i: usize) -> u32
    requires { i ≤ 8 * capacity }
    ensures { result ≡ amount_at bytes.now i }
{
    let x = byte_at(bytes, i);
    let y = byte_at(bytes, i + 1);
    let z = byte_at(bytes, i + 2);
    let w = byte_at(bytes, i + 3);
    number(x, y, z, w)
}

// Row m, from place 8m on.
fn row_at(bytes: &[u8], m: usize) -> Posting
    requires { m < capacity }
    ensures { result ≡ row_at bytes.now m }
{
    let at = ROW * m;
    Posting {
        owner: byte_at(bytes, at),
        kind: byte_at(bytes, at + 1),
        a: byte_at(bytes, at + 2),
        b: byte_at(bytes, at + 3),
        amount: amount_at(bytes, at + 4),
    }
}

// The table with these rows.
pub fn table_of(bytes: &[u8]) -> Table
    ensures { result ≡ table_of bytes.now }
{
    let mut rows = [Posting::default(); POSTINGS];
    for (m, p) in rows.iter_mut().enumerate() {
        *p = row_at(bytes, m);
    }
    Table {
        count: bytes.len() / ROW,
        rows,
    }
}

// The record with a count, and its numbers from a place on.
fn record_at(bytes: &[u8], from: usize, count: usize) -> Record
    requires { from ≤ 4096 }
    ensures { result ≡ record_at bytes.now from count }
{
    let mut numbers = [0; POSTINGS];
    for (i, m) in numbers.iter_mut().enumerate() {
        *m = byte_at(bytes, i + from);
    }
    Record { count, numbers }
}

// The record with these numbers.
pub fn record_of(bytes: &[u8]) -> Record
    ensures { result ≡ record_of_bytes bytes.now }
{
    record_at(bytes, 0, bytes.len())
}

// A count in two bytes from a place on, the highest first.
fn count_at(bytes: &[u8], i: usize) -> usize
    requires { i ≤ 7 * record_size }
    ensures { result ≡ count_at bytes.now i }
{
    usize::from(byte_at(bytes, i)) * 256 + usize::from(byte_at(bytes, i + 1))
}

// The record of site s: its count, then a place for each number.
fn site_record(bytes: &[u8], s: usize) -> Record
    requires { s < 7 }
    ensures { result ≡ site_record bytes.now s }
{
    let at = RECORD * s;
    let count = count_at(bytes, at);
    record_at(bytes, at + COUNT, count)
}

// The records of the sites.
pub fn records_of(bytes: &[u8]) -> Records
    ensures { result ≡ records_of bytes.now }
{
    let mut sites = [Record::empty(); SITES];
    for (s, delivered) in sites.iter_mut().enumerate() {
        *delivered = site_record(bytes, s);
    }
    Records { sites }
}

// Whether the fields of every row are within the rule.
fn rows_ok(bytes: &[u8]) -> bool
    requires { length bytes.now ≤ 8 * capacity }
    ensures { result ≡ rows_ok bytes.now }
{
    (0..bytes.len() / ROW).all(|m| row_at(bytes, m).fields_ok())
}

// Whether so many bytes are whole parts of a size, and of those at most a limit.
pub fn whole(length: usize, size: usize, limit: usize) -> bool
    requires { 0 < size }
    ensures { result ≡ whole length size limit }
{
    length % size == 0 && length / size <= limit
}

// Whether these are the rows of a table, all within the field rule.
pub fn table_ok(bytes: &[u8]) -> bool
    ensures { result ≡ table_ok bytes.now }
{
    whole(bytes.len(), ROW, POSTINGS) && rows_ok(bytes)
}

// Whether the record is within the capacity and all its numbers are below n.
pub fn record_ok(delivered: Record, n: usize) -> bool
    ensures { result ≡ record_ok delivered n }
{
    delivered.count <= POSTINGS
        && delivered.numbers[..delivered.count]
            .iter()
            .all(|m| usize::from(*m) < n)
}

// Whether each site's record is within the capacity, and all its numbers are below n.
fn each_ok(bytes: &[u8], n: usize) -> bool
    requires { site_count bytes.now ≤ 7 }
    ensures { result ≡ each_ok bytes.now n }
{
    (0..bytes.len() / RECORD).all(|s| record_ok(site_record(bytes, s), n))
}

// Whether these are records of sites, each within the capacity and with all its numbers below n.
pub fn sites_ok(bytes: &[u8], n: usize) -> bool
    ensures { result ≡ sites_ok bytes.now n }
{
    whole(bytes.len(), RECORD, SITES) && each_ok(bytes, n)
}
