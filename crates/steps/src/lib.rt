// What the events of a board share: calls, a step cut, and refusals.
// Rests on site, posting, masks and sets.
#![tactic(auto)]

ghost use Rattle.std.specs.Prelude.{◌≡◌};
ghost use Rattle.steps.specs.Refusals.{number_of};

pub mod cuts;
pub mod refusals;

// Whether a step is taken whole, or cut after its first sends.
#[derive(Clone, Copy)]
pub enum Cut {
    Whole,
    After(usize),
}

// The receipt of a message about a posting: its sender, its receiver, and how far the receiver's step goes.
#[derive(Clone, Copy)]
pub struct Receipt {
    pub posting: usize,
    pub from: usize,
    pub to: usize,
    pub cut: Cut,
}

// A call: one of document 01's events.
#[derive(Drop)]
pub enum Call {
    Offer {
        site: usize,
        kind: u8,
        a: u8,
        b: u8,
        amount: u32,
        cut: Cut,
    },
    Receive {
        form: usize,
        posting: usize,
        from: usize,
        to: usize,
        cut: Cut,
    },
    Order {
        posting: usize,
    },
    Read {
        site: usize,
        cut: Cut,
    },
    Crash {
        site: usize,
    },
}

// Why a call is not taken, with the number that each refusal has (docs/FORMATS.md).
#[derive(Clone, Copy, PartialEq, Eq)]
pub enum Refusal {
    MalformedFile = 1,
    SiteCount = 2,
    CrashCount = 3,
    Asymmetric = 4,
    LacksPair = 5,
    Unsound = 6,
    NoSite = 7,
    SiteDown = 8,
    BadFields = 9,
    TableFull = 10,
    NotInFlight = 11,
    NotInPool = 12,
    LogRead = 13,
    CrashLimit = 14,
    CutPastSends = 15,
    ShortSlice = 16,
    BadPairs = 18,
}

impl Refusal {
    // The number of the refusal.
    pub fn number(self) -> u8
        ensures { result ≡ number_of self }
    {
        self as u8
    }
}
