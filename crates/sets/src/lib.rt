// Sets of posting numbers, in 64-bit words.
// Rests on nothing.
#![tactic(auto)]

ghost use Rattle.std.specs.Prelude.{◌/◌, ◌%◌, ◌^◌, ◌≡◌, cond, eqb};
ghost use Rattle.std.specs.Int.Bits.{bit_or};
ghost use Rattle.sets.specs.Sets.{empty_set, has, with, with_if, join, meet, subset, is_empty_set};

// How many words a set has: one word holds 64 postings.
pub const WORDS: usize = 4;

// How many postings a board holds: a set has a bit for each.
pub const POSTINGS: usize = 256;

// A byte as a wider number.
pub fn wide(x: u8) -> usize
    ensures { result ≡ x }
{
    usize::from(x)
}

pub fn wide32(x: u8) -> u32
    ensures { result ≡ x }
{
    u32::from(x)
}

// A set of posting numbers: number m is bit m % 64 of word m / 64.
#[derive(Clone, Copy, PartialEq, Eq)]
pub struct Set {
    pub words: [u64; WORDS],
}

// Word i of a set with m: a word that is not m's stays.
fn word_with(w: u64, i: usize, m: usize) -> u64
    ensures { result ≡ cond (eqb i (m / 64)) (bit_or w (2 ^ (m % 64))) w }
{
    if i == m / 64 { w | (1 << (m % 64)) } else { w }
}

impl Set {
    pub fn empty() -> Set
        ensures { result ≡ empty_set }
    {
        Set { words: [0; WORDS] }
    }

    // Whether m is in the set; a number past the capacity is in none.
    pub fn has(self, m: usize) -> bool
        ensures { result ≡ has self m }
    {
        m < POSTINGS && (self.words[m / 64] >> (m % 64)) % 2 == 1
    }

    // The set with m; with a number past the capacity, the set as it is. Every word is passed over, so that a set in registers stays there.
    pub fn with(mut self, m: usize) -> Set
        ensures { result ≡ with self m }
    {
        for (i, w) in self.words.iter_mut().enumerate() {
            *w = word_with(*w, i, m);
        }
        self
    }

    // The set with m if so.
    pub fn with_if(self, m: usize, so: bool) -> Set
        ensures { result ≡ with_if self m so }
    {
        if so { self.with(m) } else { self }
    }

    // What is in either.
    pub fn join(mut self, t: Set) -> Set
        ensures { result ≡ join self t }
    {
        for (i, w) in self.words.iter_mut().enumerate() {
            *w |= t.words[i];
        }
        self
    }

    // What is in both.
    pub fn meet(mut self, t: Set) -> Set
        ensures { result ≡ meet self t }
    {
        for (i, w) in self.words.iter_mut().enumerate() {
            *w &= t.words[i];
        }
        self
    }

    // Whether everything in this set is in t.
    pub fn subset(self, t: Set) -> bool
        ensures { result ≡ subset self t }
    {
        self.words.iter().zip(&t.words).all(|(w, v)| w & v == *w)
    }

    pub fn is_empty(self) -> bool
        ensures { result ≡ is_empty_set self }
    {
        self.words.iter().all(|w| *w == 0)
    }
}
