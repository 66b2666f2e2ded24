// The figures of several sites side by side, written into a lent slice: a place past it is counted and nothing is put there.
// Rests on amounts for figures as text, on printer.
#![tactic(auto)]

ghost use Rattle.std.specs.Prelude.{◌≡◌, ◌<◌, ◌++◌, not};
ghost use Rattle.sets.specs.Below.{any_below};
ghost use Rattle.printer.specs.Output.{decimal};
ghost use Rattle.printer.specs.Puts.{Put};
ghost use Rattle.amounts.specs.Amounts.{text, same_number};
ghost use Rattle.audit_table.specs.Table.{spaces, gap, column, label, figure_name, row_name, figure_text, figure_in, columns, row_line, row_differs, row_part, row_parts, site_columns, table_text};

use amounts::{put_cents, put_signed};
use printer::print::{NEWLINE, put, put_number, put_text};

const FIGURES: usize = 64;

const COLUMN: usize = 16;

const LABEL: usize = 20;

// As many spaces as a text of n bytes leaves of a width, and one at least.
fn gap(width: usize, n: usize) -> usize
    ensures { result ≡ gap width n }
{
    width.saturating_sub(n).max(1)
}

fn put_spaces(count: usize, at: usize, out: &mut [u8]) -> usize
    ensures { Put (spaces count) at out.old out.new result }
{
    let mut place = at;
    for _ in 0..count {
        place = put(b' ', place, out);
    }
    place
}

// What a row's figure is.
fn figure_name(i: usize, at: usize, out: &mut [u8]) -> usize
    ensures { Put (figure_name i) at out.old out.new result }
{
    match i {
        0 => put_text(b" position", at, out),
        1 => put_text(b" rate", at, out),
        2 => put_text(b" called", at, out),
        _ => put_text(b" settled", at, out),
    }
}

fn row_name(row: usize, at: usize, out: &mut [u8]) -> usize
    ensures { Put (row_name row) at out.old out.new result }
{
    let p = put_text(b"account ", at, out);
    let q = put_number(row / 4, p, out);
    figure_name(row % 4, q, out)
}

// A row's name at the left end. Its length is counted on no bytes of the slice.
fn put_label(row: usize, at: usize, out: &mut [u8]) -> usize
    ensures { Put (label (row_name row)) at out.old out.new result }
{
    let n = row_name(row, 0, &mut out[..0]);
    let place = row_name(row, at, out);
    put_spaces(gap(LABEL, n), place, out)
}

fn put_figure(row: usize, x: i64, at: usize, out: &mut [u8]) -> usize
    ensures { Put (figure_text row x) at out.old out.new result }
{
    if row % 4 == 1 {
        put_signed(x, at, out)
    } else {
        put_cents(x, at, out)
    }
}

// A figure at the right end of its column.
fn put_column(row: usize, x: i64, at: usize, out: &mut [u8]) -> usize
    ensures { Put (column (figure_text row x)) at out.old out.new result }
{
    let n = put_figure(row, x, 0, &mut out[..0]);
    let place = put_spaces(gap(COLUMN, n), at, out);
    put_figure(row, x, place, out)
}

// The figure of a site in a row; past the slice it is 0.
fn figure_in(figures: &[i64], row: usize, p: usize) -> i64
    requires { (p < 8) × (row < 64) }
    ensures { result ≡ figure_in figures.now row p }
{
    figures.get(FIGURES * p + row).copied().unwrap_or(0)
}

// The columns of the sites in a row.
fn put_columns(figures: &[i64], n: usize, row: usize, at: usize, out: &mut [u8]) -> usize
    requires { (n < 8) × (row < 64) }
    ensures { Put (columns figures.now row n) at out.old out.new result }
{
    let mut place = at;
    for p in 0..n {
        place = put_column(row, figure_in(figures, row, p), place, out);
    }
    place
}

fn row_line(figures: &[i64], n: usize, row: usize, at: usize, out: &mut [u8]) -> usize
    requires { (n < 8) × (row < 64) }
    ensures { Put (row_line figures.now n row) at out.old out.new result }
{
    let p = put_label(row, at, out);
    let q = put_columns(figures, n, row, p, out);
    put(NEWLINE, q, out)
}

// Whether a site shows another figure than site 0.
fn differs(figures: &[i64], row: usize, p: usize) -> bool
    requires { (p < 8) × (row < 64) }
    ensures { result ≡ not (same_number (figure_in figures.now row p) (figure_in figures.now row 0)) }
{
    figure_in(figures, row, p) != figure_in(figures, row, 0)
}

// Whether some site does.
fn row_differs(figures: &[i64], n: usize, row: usize) -> bool
    requires { (n < 8) × (row < 64) }
    ensures { result ≡ row_differs figures.now n row }
{
    (0..n).any(|p| differs(figures, row, p))
}

fn row_part(figures: &[i64], n: usize, row: usize, at: usize, out: &mut [u8]) -> usize
    requires { (n < 8) × (row < 64) }
    ensures { Put (row_part figures.now n row) at out.old out.new result }
{
    if row_differs(figures, n, row) {
        row_line(figures, n, row, at, out)
    } else {
        at
    }
}

fn row_parts(figures: &[i64], n: usize, at: usize, out: &mut [u8]) -> usize
    requires { n < 8 }
    ensures { Put (row_parts figures.now n 64) at out.old out.new result }
{
    let mut place = at;
    for row in 0..FIGURES {
        place = row_part(figures, n, row, place, out);
    }
    place
}

// Whether any figure differs.
fn any_differs(figures: &[i64], n: usize) -> bool
    requires { n < 8 }
    ensures { result ≡ any_below (row_differs figures.now n) 64 }
{
    (0..FIGURES).any(|row| row_differs(figures, n, row))
}

// The heading of a site's column, of 16 bytes: the number of a site has one digit.
fn site_column(p: usize, at: usize, out: &mut [u8]) -> usize
    requires { p < 8 }
    ensures { Put (column (text "site " ++ decimal p)) at out.old out.new result }
{
    let place = put_text(b"          site ", at, out);
    put_number(p, place, out)
}

fn site_columns(n: usize, at: usize, out: &mut [u8]) -> usize
    requires { n < 8 }
    ensures { Put (site_columns n) at out.old out.new result }
{
    let mut place = at;
    for p in 0..n {
        place = site_column(p, place, out);
    }
    place
}

// The table of n sites, or the line that says that all figures are equal.
pub fn put_table(figures: &[i64], n: usize, at: usize, out: &mut [u8]) -> usize
    requires { n < 8 }
    ensures { Put (table_text figures.now n) at out.old out.new result }
{
    if !any_differs(figures, n) {
        return put_text(
            b"All 64 figures of these records, posted from zeros, are equal at all sites.\n",
            at,
            out,
        );
    }
    let p = put_text(
        b"Figures of these records, posted from zeros, that differ (rates per 10,000):\n",
        at,
        out,
    );
    let q = put_spaces(LABEL, p, out);
    let r = site_columns(n, q, out);
    let s = put(NEWLINE, r, out);
    row_parts(figures, n, s, out)
}
