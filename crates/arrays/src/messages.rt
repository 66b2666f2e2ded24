// What is in flight, where the places are known to be there: messages, the GOOD of a SECOND, the set of a THIRD.
// Rests on flight, whose definitions these keep; for places that are any numbers, flight has the tests.
ghost use Rattle.std.specs.Prelude.{◌<◌, ◌≡◌};
ghost use Rattle.sets.specs.Masks.{has_bit};
ghost use Rattle.sets.specs.Sets.{capacity};
ghost use Rattle.site.specs.Sites.{sites};
ghost use Rattle.flight.specs.Flights.{message_in, taking_from, sending_to, good_in, saying, set_in, carrying};

use flight::{FORMS, LOADS, MASKS, PAIRS};
use sets::{POSTINGS, Set, WORDS};
use site::SITES;

// Whether a message is on its way between two sites; of an unknown form or posting none is.
pub fn is_sent(masks: &[u8; MASKS], form: usize, m: usize, from: usize, to: usize) -> bool
    requires { (from < sites) × (to < sites) }
    ensures { result ≡ message_in masks.now form m from to }
{
    if FORMS <= form {
        return false;
    }
    if POSTINGS <= m {
        return false;
    }
    let w = masks[form * PAIRS + (m * SITES + from)];
    (w >> to) % 2 == 1
}

// A message leaves.
pub fn take_out(masks: &mut [u8; MASKS], form: usize, m: usize, from: usize, to: usize)
    requires { (form < 4) × (m < capacity) × (from < sites) × (to < sites) }
    ensures { masks.new ≡ taking_from masks.old form m from to }
{
    let i = form * PAIRS + (m * SITES + from);
    let w = masks[i];
    masks[i] = w - (w & (1 << to));
}

// A message goes out to the sites of a mask.
pub fn send(masks: &mut [u8; MASKS], form: usize, m: usize, from: usize, receivers: u8)
    requires { (form < 4) × (m < capacity) × (from < sites) }
    ensures { masks.new ≡ sending_to masks.old form m from receivers }
{
    let i = form * PAIRS + (m * SITES + from);
    let w = masks[i];
    masks[i] = w | receivers;
}

// Whether the SECOND of m says GOOD to a site.
pub fn is_good(good: &[u8; PAIRS], m: usize, from: usize, to: usize) -> bool
    requires { (m < capacity) × (from < sites) × (to < sites) }
    ensures { result ≡ has_bit (good_in good.now m from) to }
{
    let i = m * SITES + from;
    let w = good[i];
    (w >> to) % 2 == 1
}

// The SECOND of m says GOOD, or BAD, to the sites of a mask.
pub fn say(good: &mut [u8; PAIRS], m: usize, from: usize, receivers: u8, so: bool)
    requires { (m < capacity) × (from < sites) }
    ensures { good.new ≡ saying good.old m from receivers so }
{
    let i = m * SITES + from;
    let w = good[i];
    if so {
        good[i] = w | receivers;
        return;
    }
    good[i] = w - (w & receivers);
}

// The set that the THIRD of m carries.
pub fn carried_set(carried: &[u64; LOADS], m: usize, from: usize) -> Set
    requires { (m < capacity) × (from < sites) }
    ensures { result ≡ set_in carried.now m from }
{
    let i = m * SITES + from;
    let mut load = Set::empty();
    for k in 0..WORDS {
        load.words[k] = carried[WORDS * i + k];
    }
    load
}

// The THIRD of m carries a set.
pub fn carry(carried: &mut [u64; LOADS], m: usize, from: usize, load: Set)
    requires { (m < capacity) × (from < sites) }
    ensures { carried.new ≡ carrying carried.old m from load }
{
    let i = m * SITES + from;
    for k in 0..WORDS {
        carried[WORDS * i + k] = load.words[k];
    }
}
