// One site: its sets, what it has heard, its log place and its record; and the third round of the postings that it owns.
// Rests on masks and posting.
#![tactic(auto)]

ghost use Rattle.std.specs.Prelude.{◌≡◌};
ghost use Rattle.site.specs.Steps.{alone, majority};
ghost use Rattle.site.specs.ByMask.{reached, late};

use masks::has_site;
use posting::Record;
use sets::{POSTINGS, Set};

// How many sites a board has room for.
pub const SITES: usize = masks::SITES as usize;

// What a start takes: n sites, f crashes allowed, the yes/no matrix over kinds.
#[derive(Clone, Copy, PartialEq, Eq)]
pub struct Setup {
    pub n: u8,
    pub f: u8,
    pub matrix: u16,
}

// What belongs to one site. Masks of senders stand by posting.
#[derive(Clone, Copy, PartialEq, Eq)]
pub struct Site {
    pub seen: Set,
    pub held: Set,
    pub stepped: Set,
    pub finished: Set,
    // a DELIVER was received: the next one is not the first
    pub got: Set,
    // SECOND heard from these senders, and GOOD from these
    pub heard: [u8; POSTINGS],
    pub good: [u8; POSTINGS],
    // how many entries of the log were read
    pub place: usize,
    // document 01's record
    pub delivered: Record,
}

// The third round of one posting, at its owner: THIRD heard from these senders, those whose set had the posting, the union of the sets.
#[derive(Clone, Copy, PartialEq, Eq)]
pub struct Tally {
    pub heard: u8,
    pub has: u8,
    pub union: Set,
}

// What a step sends about a posting, to the sites of a mask in rising number; an empty mask sends nothing. A SECOND has its GOOD or BAD,
// a THIRD and an entry their set.
#[derive(Drop)]
pub struct Sends {
    pub form: u8,
    pub to: u8,
    pub good: bool,
    pub carried: Set,
}

// A step: the site, and the tally of the posting, once the sets have changed; what it sends; whether it then delivers the posting.
#[derive(Drop)]
pub struct Stepped {
    pub site: Site,
    pub tally: Tally,
    pub sends: Sends,
    pub delivers: bool,
}

// The forms of messages; past them, the entry into the pool.
pub const FIRST: u8 = 0;

pub const SECOND: u8 = 1;

pub const THIRD: u8 = 2;

pub const DELIVER: u8 = 3;

pub const ENTRY: u8 = 4;

// Whether a set meets C(m) in m alone, or not at all.
pub fn alone(seen: Set, conflicts: Set, m: usize) -> bool
    ensures { result ≡ alone seen conflicts m }
{
    seen.meet(conflicts).subset(Set::empty().with(m))
}

impl Setup {
    // Whether the sites of the mask are more than n/2.
    pub fn majority(self, mask: u8) -> bool
        ensures { result ≡ majority self mask }
    {
        u32::from(self.n) < 2 * mask.count_ones()
    }

    // Whether the sites of the mask are n - f or more.
    pub fn reached(self, mask: u8) -> bool
        ensures { result ≡ reached self mask }
    {
        u32::from(self.n) <= u32::from(self.f) + mask.count_ones()
    }

    // Whether a site is already heard, or n - f are, or the posting is done with. The last, the cheapest to tell, is asked first.
    pub fn late(self, heard: u8, from: u8, done: bool) -> bool
        ensures { result ≡ late self heard from done }
    {
        done || has_site(heard, from) || self.reached(heard)
    }
}
