// Whether a board is quiet: nothing in flight is for a site that is up, the pool is empty, and every site that is up has read the whole log.
// Rests on machine, arrays, flight, site, masks and sets. It is answered for every board value: a place past the array is a site that has read nothing.
ghost use Rattle.std.specs.Prelude.{ℕ, ◌≤◌, ◌≡◌, List, length, get_or};
ghost use Rattle.flight.specs.Flights.{cells};
ghost use Rattle.site.specs.Sites.{sites, no_site};
ghost use Rattle.arrays.specs.Layout.{logged_at};
ghost use Rattle.arrays.specs.Arrays.{arrays};
ghost use Rattle.machine.specs.Runs.{is_quiet};
ghost use Rattle.machine.specs.View.{view};
ghost use Rattle.machine.specs.QuietParts.{up_byte, place_in, all_have_read, quiet_by};

use arrays::{Arrays, COUNTS, DOWN, LOGGED, PLACE, POOL, load};
use flight::MASKS;
use machine::Board;
use masks::has_site;
use sets::Set;
use site::{SITES, Setup, Site};

// The sites that are up, of n with these down. A byte has eight of them at most, and a mask in flight names no others.
pub fn up_mask(n: u8, down: u8) -> u8
    ensures { result ≡ up_byte n down }
{
    if 8 <= n {
        return 255 - down;
    }
    let all = (1 << n) - 1;
    all - (down & all)
}

// Every site that is up has read as much as was logged.
fn all_read(n: u8, down: u8, counts: &[usize; COUNTS]) -> bool
    ensures { result ≡ all_have_read n down counts.now }
{
    let logged = counts[LOGGED];
    if logged == 0 {
        return true;
    }
    for p in 0..n {
        if has_site(down, p) {
            continue;
        }
        let i = p as usize;
        if SITES <= i {
            return false;
        }
        if counts[PLACE + i] < logged {
            return false;
        }
    }
    true
}

// The three parts in turn: the first that fails ends the test.
fn quiet_by(masks: &[u8; MASKS], n: u8, down: u8, pool: Set, counts: &[usize; COUNTS]) -> bool
    ensures { result ≡ quiet_by masks.now n down pool counts.now }
{
    let up = up_mask(n, down);
    flight::nothing_comes(masks, up) && pool.is_empty() && all_read(n, down, counts)
}

// The log places of sites, and how many entries were logged, as the arrays of a board at work have them.
fn places_of(sites: [Site; SITES], logged: usize) -> [usize; COUNTS]
    ensures by_index { (p : ℕ) → (get_or sites p no_site).place ≡ place_in result p }
    ensures logged_at_value { get_or result logged_at 0 ≡ logged }
{
    let mut counts = [0; COUNTS];
    counts[LOGGED] = logged;
    for p in 0..SITES {
        counts[PLACE + p] = sites[p].place;
    }
    counts
}

pub fn is_quiet(board: Board) -> bool
    ensures { result ≡ is_quiet board }
{
    let counts = places_of(board.sites, board.log.count);
    quiet_by(
        &board.flight.masks,
        board.setup.n,
        board.down,
        board.pool,
        &counts,
    )
}

// The same of a board at work.
pub fn is_quiet_at(board: &Arrays, setup: Setup) -> bool
    requires { (setup.n ≤ sites) × (length board.now.masks ≡ cells) }
    ensures { (amounts good carried : List ℕ) → result ≡ is_quiet (view setup (arrays board.now.sets board.now.counts board.now.bytes amounts board.now.masks good carried)) }
{
    let pool = load(&board.sets, POOL);
    quiet_by(
        &board.masks,
        setup.n,
        board.bytes[DOWN],
        pool,
        &board.counts,
    )
}
