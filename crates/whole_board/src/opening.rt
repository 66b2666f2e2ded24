// Start: the board of n sites, f crashes and a matrix; and the blank board.
// Rests on machine, flight, site, posting and sets.
ghost use Rattle.std.specs.Prelude.{◌≡◌};
ghost use Rattle.site.specs.Sites.{blank_site, blank_tally};
ghost use Rattle.posting.specs.Conflicts.{empty_table};
ghost use Rattle.machine.specs.Boards.{fresh_board};
ghost use Rattle.machine.specs.Calls.{answer_of, starting};
ghost use Rattle.steps.specs.CauseLists.{first_cause};
ghost use Rattle.steps.specs.Refusals.{answer_number};
ghost use Rattle.machine.specs.ByMask.{start_causes};

use flight::Flight;
use machine::{Answer, Board, Outcome};
use posting::{Posting, Record, Table, has_fixed_pairs, symmetric};
use sets::{POSTINGS, Set};
use site::{SITES, Setup, Site, Tally};
use steps::Refusal;

// 2 to 5 of a start.
pub fn start_fits(n: u8, f: u8, matrix: u16) -> Result<(), Refusal>
    ensures { answer_number result ≡ first_cause (start_causes n f matrix) }
{
    if n < 3 || 7 < n {
        return Err(Refusal::SiteCount);
    }
    if u32::from(n) <= 2 * u32::from(f) {
        return Err(Refusal::CrashCount);
    }
    if !symmetric(matrix) {
        return Err(Refusal::Asymmetric);
    }
    if !has_fixed_pairs(matrix) {
        return Err(Refusal::LacksPair);
    }
    Ok(())
}

// A site that has done nothing.
fn blank_site() -> Site
    ensures { result ≡ blank_site }
{
    let none = Set::empty();
    Site {
        seen: none,
        held: none,
        stepped: none,
        finished: none,
        got: none,
        heard: [0; POSTINGS],
        good: [0; POSTINGS],
        place: 0,
        delivered: Record::empty(),
    }
}

// A third round with nothing heard.
fn blank_tally() -> Tally
    ensures { result ≡ blank_tally }
{
    Tally {
        heard: 0,
        has: 0,
        union: Set::empty(),
    }
}

// No posting offered.
fn empty_table() -> Table
    ensures { result ≡ empty_table }
{
    let none = Posting {
        owner: 0,
        kind: 0,
        a: 0,
        b: 0,
        amount: 0,
    };
    Table {
        count: 0,
        rows: [none; POSTINGS],
    }
}

// Nothing offered, nothing sent, all sites up.
pub fn fresh(setup: Setup) -> Board
    ensures { result ≡ fresh_board setup }
{
    let none = Set::empty();
    Board {
        setup,
        down: 0,
        table: empty_table(),
        sites: [blank_site(); SITES],
        tallies: [blank_tally(); POSTINGS],
        flight: Flight::empty(),
        pool: none,
        entries: [none; POSTINGS],
        log: Record::empty(),
    }
}

// Start; a refused start hands back the blank board, all zeros.
pub fn start(n: u8, f: u8, matrix: u16) -> Outcome
    ensures value { result ≡ starting n f matrix }
    ensures answer_value { answer_of result.answer ≡ answer_of (starting n f matrix).answer }
{
    match start_fits(n, f, matrix) {
        Ok(()) => Outcome {
            board: fresh(Setup { n, f, matrix }),
            answer: Answer::Done,
        },
        Err(refusal) => Outcome {
            board: fresh(Setup {
                n: 0,
                f: 0,
                matrix: 0,
            }),
            answer: Answer::Refused(refusal.number()),
        },
    }
}
