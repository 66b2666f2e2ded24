// What a line of a file says: a posting's number, or all its fields.
// Rests on posting for kinds, on audit_rule. Nothing but the bytes of the line is looked at.
ghost use Rattle.std.specs.Prelude.{◌≡◌, ◌==◌, ◌<◌, ◌≤◌, IfSome, position, unwrap_or};
ghost use Rattle.audit_rule.specs.Audit.{up_to};
ghost use Rattle.audit_files.specs.Entries.{past, badly_begun, number_of, kind_of, no_number, malformed, fields_after, entry_of};

use crate::Entry;
use posting::{CALL, NET, RATE, TRADE};

const COMMA: u8 = b',';

const MOST_NUMBER: usize = 65_535;

const MOST_ACCOUNT: usize = 255;

const MOST_AMOUNT: usize = 4_294_967_295;

const MOST_KIND: usize = 3;

// Where the first such byte stands.
fn place_of(byte: u8, text: &[u8]) -> Option<usize>
    ensures { result ≡ position (λ other. other == byte) text.now }
{
    text.iter().position(|&other| other == byte)
}

// What stands ahead of the first such byte, and what follows it: all and nothing if there is none.
pub fn parted(byte: u8, text: &[u8]) -> (&[u8], &[u8])
    ensures ahead { result.0.now ≡ up_to byte text.now }
    ensures behind { result.1.now ≡ past byte text.now }
{
    match place_of(byte, text) {
        Some(i) => (&text[..i], &text[i + 1..]),
        None => (text, &[]),
    }
}

// Whether a field has no digit at all, or a zero ahead of others.
fn badly_begun(field: &[u8]) -> bool
    ensures { result ≡ badly_begun field.now }
{
    field.is_empty() || field[0] == b'0' && field.len() != 1
}

// A number of at most `most`, in decimal digits.
fn number_of(field: &[u8], most: usize) -> Option<usize>
    requires { most < 4_294_967_296 }
    ensures value { unwrap_or result no_number ≡ number_of most field.now }
    ensures bound { IfSome result (λ n. n ≤ most) }
{
    if badly_begun(field) {
        return None;
    }
    let mut value = 0;
    for &byte in field {
        if !byte.is_ascii_digit() {
            return None;
        }
        value = 10 * value + usize::from(byte - b'0');
        if most < value {
            return None;
        }
    }
    Some(value)
}

// A kind by its word, or by its number.
fn kind_of(field: &[u8]) -> Option<usize>
    ensures value { unwrap_or result no_number ≡ kind_of field.now }
    ensures bound { IfSome result (λ n. n ≤ 3) }
{
    if field == b"TRADE".as_slice() {
        Some(usize::from(TRADE))
    } else if field == b"RATE".as_slice() {
        Some(usize::from(RATE))
    } else if field == b"CALL".as_slice() {
        Some(usize::from(CALL))
    } else if field == b"NET".as_slice() {
        Some(usize::from(NET))
    } else {
        number_of(field, MOST_KIND)
    }
}

// The fields behind the number.
fn fields_after(number: u16, line: &[u8]) -> Option<Entry>
    ensures { unwrap_or result malformed ≡ fields_after number line.now }
{
    let (kind, line) = parted(COMMA, line);
    let (a, line) = parted(COMMA, line);
    let (b, amount) = parted(COMMA, line);
    let kind = kind_of(kind)? as u8;
    let a = number_of(a, MOST_ACCOUNT)? as u8;
    let b = number_of(b, MOST_ACCOUNT)? as u8;
    let amount = number_of(amount, MOST_AMOUNT)? as u32;
    Some(Entry::Whole {
        number,
        kind,
        a,
        b,
        amount,
    })
}

// What a line says, if it can be read.
fn said(line: &[u8]) -> Option<Entry>
    ensures { unwrap_or result malformed ≡ entry_of line.now }
{
    let (first, rest) = parted(COMMA, line);
    let number = number_of(first, MOST_NUMBER)? as u16;
    if first.len() == line.len() {
        return Some(Entry::Number(number));
    }
    fields_after(number, rest)
}

// What a line says.
pub fn entry_of(line: &[u8]) -> Entry
    ensures { result ≡ entry_of line.now }
{
    said(line).unwrap_or(Entry::Malformed)
}
