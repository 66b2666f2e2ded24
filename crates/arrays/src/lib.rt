// A board at work, laid out in flat arrays that are lent: where each part of it stands, and sets and masks where they lie.
// Rests on flight, steps, masks, site, posting and sets. A struct that is handed over is copied, and an array that is lent is not.
#![tactic(auto)]

ghost use Rattle.std.specs.Prelude.{◌<◌, ◌≡◌};
ghost use Rattle.sets.specs.Sets.{capacity};
ghost use Rattle.site.specs.Sites.{sites};
ghost use Rattle.arrays.specs.Layout.{slots};
ghost use Rattle.arrays.specs.Arrays.{zeros, slot_set, storing, has_in, adding, dropping, marked};

use flight::{LOADS, MASKS, PAIRS};
use masks::with_site;
use posting::{ACCOUNTS, KINDS};
use sets::{POSTINGS, Set, WORDS};
use site::SITES;
use steps::Cut;

pub mod messages;

// ---- sets, by slot: of each site; the pool; of each posting the union of its tally, and its entry

pub const SEEN: usize = 0;

pub const HELD: usize = SITES;

pub const STEPPED: usize = 2 * SITES;

pub const FINISHED: usize = 3 * SITES;

pub const GOT: usize = 4 * SITES;

pub const POOL: usize = 5 * SITES;

pub const UNION: usize = POOL + 1;

pub const ENTRY: usize = UNION + POSTINGS;

// Behind them what no board shows: the postings offered by row and kind, from which C(m) is read; and what each record has. The index has
// a row for each account, and one for all.
pub const BY_KIND: usize = ENTRY + POSTINGS;

pub const INDEX_ROWS: u8 = ACCOUNTS + 1;

pub const HAVE: usize = BY_KIND + INDEX_ROWS as usize * KINDS as usize;

pub const SLOTS: usize = HAVE + SITES;

pub const SETS: usize = WORDS * SLOTS;

// ---- counts: of postings offered, of log entries; of each site its log place, and how many postings its record has

pub const OFFERED: usize = 0;

pub const LOGGED: usize = 1;

pub const PLACE: usize = 2;

pub const DELIVERED: usize = PLACE + SITES;

pub const COUNTS: usize = DELIVERED + SITES;

// ---- bytes: who is down; of each posting its owner, kind and accounts, and its tally's masks; the log; of each site what it has heard for
// each posting, and its record

pub const DOWN: usize = 0;

pub const OWNER: usize = 1;

pub const KIND: usize = OWNER + POSTINGS;

pub const FROM: usize = KIND + POSTINGS;

pub const INTO: usize = FROM + POSTINGS;

pub const TALLIED: usize = INTO + POSTINGS;

pub const HAS: usize = TALLIED + POSTINGS;

pub const LOG: usize = HAS + POSTINGS;

pub const HEARD: usize = LOG + POSTINGS;

pub const GOOD: usize = HEARD + SITES * POSTINGS;

pub const RECORD: usize = GOOD + SITES * POSTINGS;

pub const BYTES: usize = RECORD + SITES * POSTINGS;

// ---- the board

// A board at work: words of sets by slot, counts, bytes, the amount of each posting, and what is in flight (crate flight).
#[derive(Drop)]
pub struct Arrays {
    pub sets: [u64; SETS],
    pub counts: [usize; COUNTS],
    pub bytes: [u8; BYTES],
    pub amounts: [u32; POSTINGS],
    pub masks: [u8; MASKS],
    pub good: [u8; PAIRS],
    pub carried: [u64; LOADS],
}

impl Arrays {
    // Arrays of zeros.
    pub fn empty() -> Arrays
        ensures { result ≡ zeros }
    {
        Arrays {
            sets: [0; SETS],
            counts: [0; COUNTS],
            bytes: [0; BYTES],
            amounts: [0; POSTINGS],
            masks: [0; MASKS],
            good: [0; PAIRS],
            carried: [0; LOADS],
        }
    }
}

// ---- sets where they lie

// The set of a slot.
pub fn load(words: &[u64; SETS], slot: usize) -> Set
    requires { slot < slots }
    ensures { result ≡ slot_set words.now slot }
{
    let mut s = Set::empty();
    for k in 0..WORDS {
        s.words[k] = words[WORDS * slot + k];
    }
    s
}

// A set into its slot.
pub fn store(words: &mut [u64; SETS], slot: usize, s: Set)
    requires { slot < slots }
    ensures { words.new ≡ storing words.old slot s }
{
    for k in 0..WORDS {
        words[WORDS * slot + k] = s.words[k];
    }
}

// Whether m is in the set of a slot.
pub fn has_in(words: &[u64; SETS], slot: usize, m: usize) -> bool
    requires { (slot < slots) × (m < capacity) }
    ensures { result ≡ has_in words.now slot m }
{
    let i = WORDS * slot + m / 64;
    let w = words[i];
    (w >> (m % 64)) % 2 == 1
}

// m joins the set of a slot; and leaves it.
pub fn add_to(words: &mut [u64; SETS], slot: usize, m: usize)
    requires { (slot < slots) × (m < capacity) }
    ensures { words.new ≡ adding words.old slot m }
{
    let i = WORDS * slot + m / 64;
    let w = words[i];
    words[i] = w | (1 << (m % 64));
}

pub fn drop_from(words: &mut [u64; SETS], slot: usize, m: usize)
    requires { (slot < slots) × (m < capacity) }
    ensures { words.new ≡ dropping words.old slot m }
{
    let i = WORDS * slot + m / 64;
    let w = words[i];
    words[i] = w & !(1 << (m % 64));
}

// ---- who is down

// Site p goes down, if its step is cut.
pub fn mark(bytes: &mut [u8; BYTES], p: usize, cut: Cut)
    requires { p < sites }
    ensures { bytes.new ≡ marked bytes.old p cut }
{
    match cut {
        Cut::Whole => {
            return;
        }
        Cut::After(j) => {
            let down = bytes[DOWN];
            bytes[DOWN] = with_site(down, p as u8);
        }
    }
}
