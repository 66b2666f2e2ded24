// Signed numbers written into a lent slice, plain or as cents; whether two numbers are the same.
// Rests on printer.
#![tactic(auto)]

ghost use Rattle.std.specs.Prelude.{◌≡◌};
ghost use Rattle.printer.specs.Puts.{Put};
ghost use Rattle.amounts.specs.Amounts.{sign, signed, units, cents, same_number};

use printer::print::{last_digit, put, put_number};

// A minus sign, if the number is below zero.
fn put_sign(x: i64, at: usize, out: &mut [u8]) -> usize
    ensures { Put (sign x) at out.old out.new result }
{
    if x < 0 { put(b'-', at, out) } else { at }
}

// A signed number in base ten.
pub fn put_signed(x: i64, at: usize, out: &mut [u8]) -> usize
    ensures { Put (signed x) at out.old out.new result }
{
    let p = put_sign(x, at, out);
    put_number(x.unsigned_abs() as usize, p, out)
}

// A size in cents as units, a point and two digits.
pub fn put_units(n: usize, at: usize, out: &mut [u8]) -> usize
    ensures { Put (units n) at out.old out.new result }
{
    let p = put_number(n / 100, at, out);
    let q = put(b'.', p, out);
    let r = put(last_digit(n / 10), q, out);
    put(last_digit(n), r, out)
}

// A number of cents.
pub fn put_cents(x: i64, at: usize, out: &mut [u8]) -> usize
    ensures { Put (cents x) at out.old out.new result }
{
    let p = put_sign(x, at, out);
    put_units(x.unsigned_abs() as usize, p, out)
}

// Whether two numbers are the same.
pub fn same_number(x: i64, y: i64) -> bool
    ensures { result ≡ same_number x y }
{
    x == y
}
