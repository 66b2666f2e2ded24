// The lines of a statement, written into a lent slice: a place past it is counted and nothing is put there.
// Rests on same, on amounts for signed numbers, on printer.
ghost use Rattle.std.specs.Prelude.{◌≡◌, ◌++◌};
ghost use Rattle.printer.specs.Writing.{slice_printed, written_of, answer_printed};
ghost use Rattle.printer.specs.Puts.{Put};
ghost use Rattle.amounts.specs.Amounts.{signed};
ghost use Rattle.statements.specs.Table.{account_line, account_part, account_lines, site_heading, accounts_part, site_part, site_parts, closing_line, statement_text};

use crate::same::{account_at, all_agree, has_none, is_blank};
use amounts::put_signed;
use books::Figures;
use masks::has_site;
use posting::ACCOUNTS;
use printer::print::{NEWLINE, put, put_number, put_state, put_text};
use sets::wide;

// A word and a signed number.
fn put_figure(word: &[u8], x: i64, at: usize, out: &mut [u8]) -> usize
    ensures { Put (word.now ++ signed x) at out.old out.new result }
{
    let p = put_text(word, at, out);
    put_signed(x, p, out)
}

// Account, position, rate, called, settled.
fn account_line(k: u8, a: Figures, at: usize, out: &mut [u8]) -> usize
    ensures { Put (account_line k a) at out.old out.new result }
{
    let p = put_text(b"account ", at, out);
    let q = put_number(wide(k), p, out);
    let r = put_figure(b" position ", a.position, q, out);
    let s = put_figure(b" rate ", a.rate, r, out);
    let t = put_figure(b" called ", a.called, s, out);
    let u = put_figure(b" settled ", a.settled, t, out);
    put(NEWLINE, u, out)
}

// An account whose figures are all zeros has no line.
fn account_part(k: u8, a: Figures, at: usize, out: &mut [u8]) -> usize
    ensures { Put (account_part k a) at out.old out.new result }
{
    if is_blank(a) {
        return at;
    }
    account_line(k, a, at, out)
}

// The lines of the accounts of site p.
fn account_lines(figures: &[i64], p: u8, at: usize, out: &mut [u8]) -> usize
    ensures { Put (account_lines figures.now p 16) at out.old out.new result }
{
    let mut place = at;
    for k in 0..ACCOUNTS {
        let a = account_at(figures, p, k);
        place = account_part(k, a, place, out);
    }
    place
}

// A site, up or down.
fn site_heading(p: u8, down: bool, at: usize, out: &mut [u8]) -> usize
    ensures { Put (site_heading p down) at out.old out.new result }
{
    let a = put_text(b"Site ", at, out);
    let b = put_number(wide(p), a, out);
    let c = put_state(down, b, out);
    put(NEWLINE, c, out)
}

// The accounts of site p, or the line that says there are no figures.
fn accounts_part(figures: &[i64], p: u8, at: usize, out: &mut [u8]) -> usize
    ensures { Put (accounts_part figures.now p) at out.old out.new result }
{
    if has_none(figures, p) {
        return put_text(b"no figures\n", at, out);
    }
    account_lines(figures, p, at, out)
}

// A site and its accounts.
fn site_part(figures: &[i64], p: u8, down: bool, at: usize, out: &mut [u8]) -> usize
    ensures { Put (site_part figures.now p down) at out.old out.new result }
{
    let place = site_heading(p, down, at, out);
    accounts_part(figures, p, place, out)
}

// The first n sites.
fn site_parts(figures: &[i64], n: u8, down: u8, at: usize, out: &mut [u8]) -> usize
    ensures { Put (site_parts figures.now down n) at out.old out.new result }
{
    let mut place = at;
    for p in 0..n {
        let is_down = has_site(down, p);
        place = site_part(figures, p, is_down, place, out);
    }
    place
}

// The closing line.
fn closing_line(same: bool, at: usize, out: &mut [u8]) -> usize
    ensures { Put (closing_line same) at out.old out.new result }
{
    if same {
        return put_text(b"All sites that are up show the same figures.\n", at, out);
    }
    put_text(b"Sites that are up show different figures.\n", at, out)
}

// All lines of a statement.
fn statement_lines(figures: &[i64], n: u8, down: u8, at: usize, out: &mut [u8]) -> usize
    ensures { Put (statement_text figures.now n down) at out.old out.new result }
{
    let place = site_parts(figures, n, down, at, out);
    let same = all_agree(figures, n, down);
    closing_line(same, place, out)
}

// The statement of the figures of n sites, printed. The lines are counted first, on no bytes of the slice.
pub fn print_statement(figures: &[i64], n: u8, down: u8, out: &mut [u8]) -> Option<usize>
    ensures value { result ≡ answer_printed (statement_text figures.now n down) out.old }
    ensures out_after { out.new ≡ slice_printed (statement_text figures.now n down) out.old }
    ensures result_value { written_of result ≡ written_of (answer_printed (statement_text figures.now n down) out.old) }
{
    let needed = statement_lines(figures, n, down, 0, &mut out[0..0]);
    if out.len() < needed {
        return None;
    }
    let end = statement_lines(figures, n, down, 0, out);
    Some(end)
}
