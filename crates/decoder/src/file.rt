// A run file's header and events, read from bytes: whether it is well formed, and the call of each event.
// Rests on steps for calls, site for the setup. Past the end of the bytes zeros are read.
ghost use Rattle.std.specs.Prelude.{◌<◌, ◌≤◌, ◌≡◌, ◌&&◌, length};
ghost use Rattle.decoder.specs.RunFile.{byte_at, pair, quad, has_mark, header_ok, setup_of, event_count, length_ok, known_code, zero_at, unused_ok, cut_ok, event_at, event_ok, events_ok, well_formed, cut_of, offer_of, receive_of, call_of, call_at};

use site::Setup;
use steps::{Call, Cut};

// How many bytes the header has, and an event; how many events there can be.
pub const HEADER: usize = 9;

pub const EVENT: usize = 10;

pub const EVENTS: usize = 4096;

// The codes of an event.
const OFFER: u8 = 1;

pub const RECEIVE: u8 = 2;

const ORDER: u8 = 3;

const READ: u8 = 4;

const CRASH: u8 = 5;

// The cut byte of what is not cut.
const UNCUT: u8 = 255;

// The byte at a place; past the end, 0.
pub fn byte_at(bytes: &[u8], i: usize) -> u8
    ensures { result ≡ byte_at bytes.now i }
{
    bytes.get(i).copied().unwrap_or(0)
}

// Two bytes as a number, the highest first.
fn pair(x: u8, y: u8) -> u16
    ensures { result ≡ pair x y }
{
    u16::from_be_bytes([x, y])
}

// Four bytes as a number, the highest first.
fn quad(x: u8, y: u8, z: u8, w: u8) -> u32
    ensures { result ≡ quad x y z w }
{
    u32::from_be_bytes([x, y, z, w])
}

// Whether the first three bytes are the mark.
fn has_mark(input: &[u8]) -> bool
    ensures { result ≡ has_mark input.now }
{
    byte_at(input, 0) == b'R' && byte_at(input, 1) == b'U' && byte_at(input, 2) == b'N'
}

// Whether the mark and the version are right.
fn header_ok(input: &[u8]) -> bool
    ensures { result ≡ header_ok input.now }
{
    has_mark(input) && pair(byte_at(input, 3), byte_at(input, 4)) == 1
}

// Whether so many bytes are a header and whole events, and those not too many.
fn length_ok(length: usize) -> bool
    ensures { result ≡ length_ok length }
{
    HEADER <= length && (length - HEADER) % EVENT == 0 && (length - HEADER) / EVENT <= EVENTS
}

// How many events follow the header.
pub fn event_count(input: &[u8]) -> usize
    ensures { result ≡ event_count input.now }
{
    input.len().saturating_sub(HEADER) / EVENT
}

fn known_code(code: u8) -> bool
    ensures { result ≡ known_code code }
{
    (OFFER..=CRASH).contains(&code)
}

// Whether places 2 to 4 of an event are 0.
fn middle_blank(event: &[u8]) -> bool
    requires { 10 ≤ length event.now }
    ensures { result ≡ (zero_at event.now 2 && zero_at event.now 3 && zero_at event.now 4) }
{
    event[2] == 0 && event[3] == 0 && event[4] == 0
}

// Whether places 5 to 8 are.
fn end_blank(event: &[u8]) -> bool
    requires { 10 ≤ length event.now }
    ensures { result ≡ (zero_at event.now 5 && zero_at event.now 6 && zero_at event.now 7 && zero_at event.now 8) }
{
    event[5] == 0 && event[6] == 0 && event[7] == 0 && event[8] == 0
}

// Whether the unused bytes are 0: an offer uses all eight, a receive four, the others one.
fn unused_ok(event: &[u8]) -> bool
    requires { 10 ≤ length event.now }
    ensures { result ≡ unused_ok event.now }
{
    match event[0] {
        OFFER => true,
        RECEIVE => end_blank(event),
        _ => middle_blank(event) && end_blank(event),
    }
}

// Whether the cut byte is one that the code may have.
fn cut_ok(code: u8, cut: u8) -> bool
    ensures { result ≡ cut_ok code cut }
{
    match code {
        ORDER | CRASH => cut == UNCUT,
        _ => true,
    }
}

// Whether an event has a known code, a cut byte that may be, and zeros in its unused bytes.
pub fn event_ok(event: &[u8]) -> bool
    requires { 10 ≤ length event.now }
    ensures { result ≡ event_ok event.now }
{
    let code = event[0];
    known_code(code) && cut_ok(code, event[9]) && unused_ok(event)
}

// The ten bytes of event k.
fn event_at(input: &[u8], k: usize) -> &[u8]
    requires { k < event_count input.now }
    ensures bytes { result.now ≡ event_at input.now k }
    ensures whole { length result.now ≡ 10 }
{
    let at = HEADER + EVENT * k;
    &input[at..at + EVENT]
}

// Whether every event is so.
fn events_ok(input: &[u8]) -> bool
    ensures { result ≡ events_ok input.now }
{
    (0..event_count(input)).all(|k| event_ok(event_at(input, k)))
}

// Whether the file is as document 01 says; anything else is refusal 1.
pub fn well_formed(input: &[u8]) -> bool
    ensures { result ≡ well_formed input.now }
{
    header_ok(input) && length_ok(input.len()) && events_ok(input)
}

// n, f and the matrix.
pub fn setup_of(input: &[u8]) -> Setup
    ensures { result ≡ setup_of input.now }
{
    Setup {
        n: byte_at(input, 5),
        f: byte_at(input, 6),
        matrix: pair(byte_at(input, 7), byte_at(input, 8)),
    }
}

// What a cut byte says.
pub fn cut_of(cut: u8) -> Cut
    ensures { result ≡ cut_of cut }
{
    if cut == UNCUT {
        Cut::Whole
    } else {
        Cut::After(usize::from(cut))
    }
}

// The call of an offer: site, kind, a, b, amount.
fn offer_of(event: &[u8]) -> Call
    ensures { result ≡ offer_of event.now }
{
    let amount = quad(
        byte_at(event, 5),
        byte_at(event, 6),
        byte_at(event, 7),
        byte_at(event, 8),
    );
    Call::Offer {
        site: usize::from(byte_at(event, 1)),
        kind: byte_at(event, 2),
        a: byte_at(event, 3),
        b: byte_at(event, 4),
        amount,
        cut: cut_of(byte_at(event, 9)),
    }
}

// The call of a receive: form, posting, from, to.
fn receive_of(event: &[u8]) -> Call
    ensures { result ≡ receive_of event.now }
{
    Call::Receive {
        form: usize::from(byte_at(event, 1)),
        posting: usize::from(byte_at(event, 2)),
        from: usize::from(byte_at(event, 3)),
        to: usize::from(byte_at(event, 4)),
        cut: cut_of(byte_at(event, 9)),
    }
}

// The call of an event.
pub fn call_of(event: &[u8]) -> Call
    ensures { result ≡ call_of event.now }
{
    let field = usize::from(byte_at(event, 1));
    match byte_at(event, 0) {
        OFFER => offer_of(event),
        RECEIVE => receive_of(event),
        ORDER => Call::Order { posting: field },
        READ => Call::Read {
            site: field,
            cut: cut_of(byte_at(event, 9)),
        },
        _ => Call::Crash { site: field },
    }
}

// The call of event k; past the last one, a crash of site 0. The bytes of an event are lent on as ten, so that none is tested for the end.
pub fn call_at(input: &[u8], k: usize) -> Call
    ensures { result ≡ call_at input.now k }
{
    if k < event_count(input) {
        call_of(event_at(input, k))
    } else {
        Call::Crash { site: 0 }
    }
}
