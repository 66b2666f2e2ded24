// The report of a refusal, written into a lent slice: a place past it is counted and nothing is put there.
// Rests on audit_files for what is refused, on printer.
ghost use Rattle.std.specs.Prelude.{◌/◌, ◌%◌, ◌++◌};
ghost use Rattle.printer.specs.Output.{decimal};
ghost use Rattle.printer.specs.Puts.{Put};
ghost use Rattle.amounts.specs.Amounts.{text};
ghost use Rattle.audit_witness.specs.Refusals.{file_words, line_words, fault_words, reason_words, unread_words, refusal_words, refused_text};

use audit_files::Refused;
use printer::print::{NEWLINE, put, put_number, put_text};

// A file by what it holds.
#[tactic(auto, unfolding(crate::specs::Refusals::file_words))]
fn put_file(file: usize, at: usize, out: &mut [u8]) -> usize
    ensures { Put (file_words file) at out.old out.new result }
{
    if file == 0 {
        put_text(b"the postings' file", at, out)
    } else {
        let p = put_text(b"site ", at, out);
        let q = put_number(file - 1, p, out);
        put_text(b"'s file", q, out)
    }
}

// A line of a file.
fn put_line(file: usize, line: usize, at: usize, out: &mut [u8]) -> usize
    ensures { Put (line_words file line) at out.old out.new result }
{
    let p = put_file(file, at, out);
    let q = put_text(b", line ", p, out);
    put_number(line, q, out)
}

// The line that has other fields.
fn put_other_fields(other: usize, at: usize, out: &mut [u8]) -> usize
    ensures { Put (text " has other fields in " ++ (line_words (other % 8) (other / 8) ++ text ".\n")) at out.old out.new result }
{
    let p = put_text(b" has other fields in ", at, out);
    let q = put_line(other % 8, other / 8, p, out);
    put_text(b".\n", q, out)
}

// The line that has the posting already.
fn put_already(other: usize, at: usize, out: &mut [u8]) -> usize
    ensures { Put (text " stands on line " ++ (decimal (other / 8) ++ text " already.\n")) at out.old out.new result }
{
    let p = put_text(b" stands on line ", at, out);
    let q = put_number(other / 8, p, out);
    put_text(b" already.\n", q, out)
}

// What is wrong with a posting.
#[tactic(auto, unfolding(crate::specs::Refusals::fault_words))]
fn put_fault(code: u8, other: usize, at: usize, out: &mut [u8]) -> usize
    ensures { Put (fault_words code other) at out.old out.new result }
{
    match code {
        5 => put_text(b" has fields outside the row of its kind.\n", at, out),
        7 => put_text(b" is not in the postings' file.\n", at, out),
        8 => put_other_fields(other, at, out),
        _ => put_already(other, at, out),
    }
}

// What is wrong with a line.
#[tactic(auto, unfolding(crate::specs::Refusals::reason_words))]
fn put_reason(code: u8, number: usize, other: usize, at: usize, out: &mut [u8]) -> usize
    ensures { Put (reason_words code number other) at out.old out.new result }
{
    if code == 4 {
        put_text(
            b"not number,kind,a,b,amount, nor, in a record beside a file of postings, a number.\n",
            at,
            out,
        )
    } else {
        let p = put_text(b"posting ", at, out);
        let q = put_number(number, p, out);
        put_fault(code, other, q, out)
    }
}

// A file that could not be read, or that is too long.
fn put_unread(file: usize, long: usize, at: usize, out: &mut [u8]) -> usize
    ensures { Put (unread_words file long) at out.old out.new result }
{
    let p = if long == 0 {
        put_text(b"This file cannot be read: ", at, out)
    } else {
        put_text(b"This file has 2097152 bytes or more: ", at, out)
    };
    let q = put_file(file, p, out);
    put_text(b".\n", q, out)
}

// A line that is refused.
fn put_refused_line(r: Refused, at: usize, out: &mut [u8]) -> usize
    ensures { Put (text "In " ++ (line_words r.file r.line ++ (text ": " ++ reason_words r.code r.number r.other))) at out.old out.new result }
{
    let p = put_text(b"In ", at, out);
    let q = put_line(r.file, r.line, p, out);
    let s = put_text(b": ", q, out);
    put_reason(r.code, r.number, r.other, s, out)
}

// What is refused.
#[tactic(auto, unfolding(crate::specs::Refusals::refusal_words))]
fn put_refusal(r: Refused, at: usize, out: &mut [u8]) -> usize
    ensures { Put (refusal_words r) at out.old out.new result }
{
    match r.code {
        1 => put_text(b"There must be one to seven records.\n", at, out),
        2 => put_text(
            b"The matrix must be symmetric and have the fixed pairs.\n",
            at,
            out,
        ),
        3 => put_unread(r.file, r.number, at, out),
        _ => put_refused_line(r, at, out),
    }
}

// The report of a refusal.
pub fn put_refused(r: Refused, at: usize, out: &mut [u8]) -> usize
    ensures { Put (refused_text r) at out.old out.new result }
{
    let p = put_text(b"NOT AUDITED ", at, out);
    let q = put_number(usize::from(r.code), p, out);
    let s = put(NEWLINE, q, out);
    put_refusal(r, s, out)
}
