// What other languages call: every function of the C interface, its body one call. include/board.h says in words what each takes and gives.
// Rests on counted, by_value, run_lookups, by_bytes, audit_records and audit_books. Each function takes any arguments and refuses by an answer; a slice crosses as a pointer and a length.
#![tactic(auto)]

ghost use Rattle.std.specs.Prelude.{◌≡◌, length};
ghost use Rattle.posting.specs.Kinds.{fields_ok, symmetric, has_fixed_pairs};
ghost use Rattle.posting.specs.Conflicts.{conflicting};
ghost use Rattle.printer.specs.Writing.{slice_printed, answer_printed};
ghost use Rattle.runfile.specs.Program.{printed};
ghost use Rattle.by_bytes.specs.Answers.{answer, posting_of, size_answer, effect_ok, effect_out, conflict_set_ok, conflict_set_out, books_ok, books_out, books_all_ok, books_all_out};
ghost use Rattle.counted.specs.Answers.{count_of};
ghost use Rattle.counted.specs.Drains.{drained_file};
ghost use Rattle.counted.specs.Numbers.{numbered_file};
ghost use Rattle.by_value.specs.Changed.{call_changed};
ghost use Rattle.run_lookups.specs.Looked.{looked_file};
ghost use Rattle.run_lookups.specs.Changed.{looked_changed};
ghost use Rattle.audit_records.specs.Audited.{audited, audit_code, audit_slice};
ghost use Rattle.audit_books.specs.Figures.{figures_code, figures_slice};

// ---- run files

// What `board` prints for an input, and how many bytes it has; NO_COUNT if the slice is shorter than that.
#[unsafe(no_mangle)]
pub extern "C" fn board_run_file(input: &[u8], out: &mut [u8]) -> u64
    ensures value { result ≡ count_of (answer_printed (printed input.now) out.old) }
    ensures out_after { out.new ≡ slice_printed (printed input.now) out.old }
{
    counted::run_file(input, out)
}

// A run file run, the board drained with the limit, and the books of all sites in the slice: the answer is the drain's count. NO_COUNT,
// and the slice as it was, if the file or its start is refused or the slice is shorter than 64 numbers a site.
#[unsafe(no_mangle)]
pub extern "C" fn board_run_drain(input: &[u8], limit: u64, out: &mut [i64]) -> u64
    ensures value { result ≡ (drained_file input.now limit out.old).count }
    ensures out_after { out.new ≡ (drained_file input.now limit out.old).slice }
{
    counted::run_drain(input, limit, out)
}

// A run file run, the refusal number of each event's answer in the slice, 0 if it was accepted: the answer is how many they are. NO_COUNT,
// and the slice as it was, if the file or its start is refused or the slice is shorter than that.
#[unsafe(no_mangle)]
pub extern "C" fn board_run_events(input: &[u8], numbers: &mut [u8]) -> u64
    ensures value { result ≡ (numbered_file input.now numbers.old).count }
    ensures numbers_after { numbers.new ≡ (numbered_file input.now numbers.old).slice }
{
    counted::run_events(input, numbers)
}

// What board_run_drain does, through the calls by value alone: start, the call of each event, drain, and the books of all sites.
#[unsafe(no_mangle)]
pub extern "C" fn board_run_by_value(input: &[u8], limit: u64, out: &mut [i64]) -> u64
    ensures value { result ≡ (drained_file input.now limit out.old).count }
    ensures out_after { out.new ≡ (drained_file input.now limit out.old).slice }
{
    by_value::run::run_by_value(input, limit, out)
}

// The board that a run file leaves, with the number at a place of its row replaced, takes the call that ten bytes ask for: the answer is the number
// of the refusal, 0 if it was accepted, and `board` has the board handed back and two values. NO_COUNT, and both slices as they were, if the file or its
// start is refused, the bytes ask for nothing, or `board` is shorter than that.
#[unsafe(no_mangle)]
pub extern "C" fn board_call_changed(
    input: &[u8],
    place: u64,
    value: u64,
    event: &[u8],
    limit: u64,
    figures: &mut [i64],
    board: &mut [u64],
) -> u64
    ensures value { result ≡ (call_changed input.now place value event.now limit figures.old board.old).number }
    ensures figures_after { figures.new ≡ (call_changed input.now place value event.now limit figures.old board.old).figures }
    ensures board_after { board.new ≡ (call_changed input.now place value event.now limit figures.old board.old).board }
{
    by_value::changed::call_changed(input, place, value, event, limit, figures, board)
}

// ---- balances looked up

// A run file run, and the line of each pair of site and account in the slice, four numbers each, in the order given: the answer is how many places of
// records were visited. 2^64 less the number of the refusal, and the slice as it was, if the file (1), its start (2 to 5) or the look-up (7, 18) is refused.
#[unsafe(no_mangle)]
pub extern "C" fn board_run_lookup(input: &[u8], pairs: &[u8], out: &mut [i64]) -> u64
    ensures value { result ≡ (looked_file input.now pairs.now out.old).count }
    ensures out_after { out.new ≡ (looked_file input.now pairs.now out.old).slice }
{
    run_lookups::run_lookup(input, pairs, out)
}

// What board_run_lookup does, by value, on the board that the file leaves with the number at a place of its row replaced; 6 may refuse that.
#[unsafe(no_mangle)]
pub extern "C" fn board_lookup_changed(
    input: &[u8],
    place: u64,
    value: u64,
    pairs: &[u8],
    out: &mut [i64],
) -> u64
    ensures value { result ≡ (looked_changed input.now place value pairs.now out.old).count }
    ensures out_after { out.new ≡ (looked_changed input.now place value pairs.now out.old).slice }
{
    run_lookups::lookup_changed(input, place, value, pairs, out)
}

// ---- postings and the matrix

// Whether the fields are within the rule of refusal 9.
#[unsafe(no_mangle)]
pub extern "C" fn board_fields_ok(kind: u8, a: u8, b: u8, amount: u32) -> bool
    ensures { result ≡ fields_ok (posting_of kind a b amount) }
{
    by_bytes::fields_ok(kind, a, b, amount)
}

// Whether the matrix is symmetric.
#[unsafe(no_mangle)]
pub extern "C" fn board_symmetric(matrix: u16) -> bool
    ensures { result ≡ symmetric matrix }
{
    by_bytes::symmetric(matrix)
}

// Whether the matrix has the fixed pairs.
#[unsafe(no_mangle)]
pub extern "C" fn board_has_fixed_pairs(matrix: u16) -> bool
    ensures { result ≡ has_fixed_pairs matrix }
{
    by_bytes::has_fixed_pairs(matrix)
}

// Whether two postings conflict: number m of kind i on accounts a and b, and number x of kind j on accounts c and d.
#[unsafe(no_mangle)]
pub extern "C" fn board_conflicting(
    matrix: u16,
    m: usize,
    i: u8,
    a: u8,
    b: u8,
    x: usize,
    j: u8,
    c: u8,
    d: u8,
) -> bool
    ensures { result ≡ conflicting matrix m (posting_of i a b 0) x (posting_of j c d 0) }
{
    by_bytes::conflicting(matrix, m, i, a, b, x, j, c, d)
}

// C(m) of a table, given as rows of bytes, fills the first words of the slice.
// Refused: no whole rows or too many, an m that is no row, a slice without a place for each word.
#[unsafe(no_mangle)]
pub extern "C" fn board_conflict_set(matrix: u16, rows: &[u8], m: usize, out: &mut [u64]) -> u8
    ensures value { result ≡ answer (conflict_set_ok rows.now m out.old) }
    ensures out_after { out.new ≡ conflict_set_out matrix rows.now m out.old }
{
    by_bytes::conflict_set(matrix, rows, m, out)
}

// ---- effects and books

// What a CALL adds to called; NO_SIZE if position × rate is no i64.
#[unsafe(no_mangle)]
pub extern "C" fn board_size_of_call(position: i64, rate: i64) -> u64
    ensures { result ≡ size_answer position rate }
{
    by_bytes::size_of_call(position, rate)
}

// A posting has its effect on the figures of an account, the first four numbers of the slice: position, rate, called, settled.
// Refused: a posting outside the field rule, a slice shorter than four, figures without room for one posting more.
#[unsafe(no_mangle)]
pub extern "C" fn board_effect(
    kind: u8,
    a: u8,
    b: u8,
    amount: u32,
    account: u8,
    figures: &mut [i64],
) -> u8
    ensures value { result ≡ answer (effect_ok (posting_of kind a b amount) figures.old) }
    ensures figures_after { figures.new ≡ effect_out (posting_of kind a b amount) account figures.old }
{
    by_bytes::effect(kind, a, b, amount, account, figures)
}

// The books of a record, given as a byte for each posting number, from zeros, fill the first 64 numbers of the slice.
// Refused: no whole rows or too many, a row outside the field rule, a record past the capacity, a number that is no row, a
// slice shorter than 64.
#[unsafe(no_mangle)]
pub extern "C" fn board_books(rows: &[u8], delivered: &[u8], out: &mut [i64]) -> u8
    ensures value { result ≡ answer (books_ok rows.now delivered.now out.old) }
    ensures out_after { out.new ≡ books_out rows.now delivered.now out.old }
{
    by_bytes::books(rows, delivered, out)
}

// The books of sites, whose records come one after another, from zeros: those of site s fill the 64 numbers of the
// slice from 64s on. Refused: what the books of a record refuse, no whole records, more than seven.
#[unsafe(no_mangle)]
pub extern "C" fn board_books_all(rows: &[u8], delivered: &[u8], out: &mut [i64]) -> u8
    ensures value { result ≡ answer (books_all_ok rows.now delivered.now out.old) }
    ensures out_after { out.new ≡ books_all_out rows.now delivered.now out.old }
{
    by_bytes::books_all(rows, delivered, out)
}

// ---- records that were handed over

// The audit of records that were handed over: 0 if they agree, else a refusal or what two postings show, with place and pair in the first eight
// numbers of `out`. NO_ANSWER, and `out` as it was, if it is shorter than that. The other three slices lent hold anything after the call.
#[unsafe(no_mangle)]
pub extern "C" fn board_audit_records(
    matrix: u16,
    kinds: &[u8],
    firsts: &[u8],
    seconds: &[u8],
    amounts: &[u32],
    lines: &[u16],
    ends: &[usize],
    marks: &mut [u8],
    places: &mut [u32],
    ahead: &mut [u32],
    out: &mut [u64],
) -> u64
    ensures value { result ≡ audit_code (audited matrix kinds.now firsts.now seconds.now amounts.now lines.now ends.now
        (length marks.old) (length places.old) (length ahead.old)) out.old }
    ensures out_after { out.new ≡ audit_slice (audited matrix kinds.now firsts.now seconds.now amounts.now lines.now ends.now
        (length marks.old) (length places.old) (length ahead.old)) out.old }
{
    audit_records::audit_numbers(
        matrix, kinds, firsts, seconds, amounts, lines, ends, marks, places, ahead, out,
    )
}

// The books of a record that was handed over, from zeros, fill the first 64 numbers of the slice. The answer is 0, or the number of a refusal,
// and the slice is as it was.
#[unsafe(no_mangle)]
pub extern "C" fn board_audit_figures(
    kinds: &[u8],
    firsts: &[u8],
    seconds: &[u8],
    amounts: &[u32],
    lines: &[u16],
    out: &mut [i64],
) -> u8
    ensures value { result ≡ figures_code kinds.now firsts.now seconds.now amounts.now lines.now (length out.old) }
    ensures out_after { out.new ≡ figures_slice kinds.now firsts.now seconds.now amounts.now lines.now out.old }
{
    audit_books::figures(kinds, firsts, seconds, amounts, lines, out)
}
