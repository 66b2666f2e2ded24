// The figures of an account in a lent slice, and whether the sites that are up show the same.
// Rests on amounts for numbers that are the same, on books, masks, posting and sets.
ghost use Rattle.std.specs.Prelude.{◌<◌, ◌≡◌};
ghost use Rattle.statements.specs.Table.{figure_at, account_at, is_blank, same_account, has_none, same_site, agree, agree_with, all_agree};

use amounts::same_number;
use books::{Figures, size};
use masks::has_site;
use posting::ACCOUNTS;
use sets::wide;

// One of the four figures of site p's account k; past the slice 0.
fn figure_at(figures: &[i64], p: u8, k: u8, i: usize) -> i64
    requires { i < 4 }
    ensures { result ≡ figure_at figures.now p k i }
{
    let at = 64 * wide(p) + 4 * wide(k) + i;
    if at < figures.len() {
        return figures[at];
    }
    0
}

// The figures of site p's account k.
pub fn account_at(figures: &[i64], p: u8, k: u8) -> Figures
    ensures { result ≡ account_at figures.now p k }
{
    let position = figure_at(figures, p, k, 0);
    let rate = figure_at(figures, p, k, 1);
    let called = figure_at(figures, p, k, 2);
    let settled = figure_at(figures, p, k, 3);
    Figures {
        position,
        rate,
        called,
        settled,
    }
}

// Whether all four are zeros.
pub fn is_blank(a: Figures) -> bool
    ensures { result ≡ is_blank a }
{
    if size(a.position) != 0 {
        return false;
    }
    if size(a.rate) != 0 {
        return false;
    }
    if size(a.called) != 0 {
        return false;
    }
    size(a.settled) == 0
}

// Whether no account of site p has figures.
pub fn has_none(figures: &[i64], p: u8) -> bool
    ensures { result ≡ has_none figures.now p }
{
    for k in 0..ACCOUNTS {
        let a = account_at(figures, p, k);
        if !is_blank(a) {
            return false;
        }
    }
    true
}

fn same_account(a: Figures, b: Figures) -> bool
    ensures { result ≡ same_account a b }
{
    if !same_number(a.position, b.position) {
        return false;
    }
    if !same_number(a.rate, b.rate) {
        return false;
    }
    if !same_number(a.called, b.called) {
        return false;
    }
    same_number(a.settled, b.settled)
}

// Whether sites p and q show the same figures.
fn same_site(figures: &[i64], p: u8, q: u8) -> bool
    ensures { result ≡ same_site figures.now p q }
{
    for k in 0..ACCOUNTS {
        let a = account_at(figures, p, k);
        let b = account_at(figures, q, k);
        if !same_account(a, b) {
            return false;
        }
    }
    true
}

// Whether they do, or one of them is down.
fn agree(figures: &[i64], down: u8, p: u8, q: u8) -> bool
    ensures { result ≡ agree figures.now down p q }
{
    if has_site(down, p) {
        return true;
    }
    if has_site(down, q) {
        return true;
    }
    same_site(figures, p, q)
}

// Whether site p agrees with each of n sites.
fn agree_with(figures: &[i64], n: u8, down: u8, p: u8) -> bool
    ensures { result ≡ agree_with figures.now n down p }
{
    for q in 0..n {
        if !agree(figures, down, p, q) {
            return false;
        }
    }
    true
}

// Whether all n sites that are up show the same figures.
pub fn all_agree(figures: &[i64], n: u8, down: u8) -> bool
    ensures { result ≡ all_agree figures.now n down }
{
    for p in 0..n {
        if !agree_with(figures, n, down, p) {
            return false;
        }
    }
    true
}
