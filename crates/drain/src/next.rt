// The searches that come after the flight's: the lowest posting of the pool, and the lowest site that has log left to read; and from which cell
// on the flight's next search has to look. Rests on arrays, flight, masks and sets.
ghost use Rattle.std.specs.Prelude.{◌≤◌, ◌≡◌};
ghost use Rattle.sets.specs.Masks.{has_bit};
ghost use Rattle.sets.specs.Sets.{has, capacity};
ghost use Rattle.site.specs.Sites.{sites};
ghost use Rattle.arrays.specs.Layout.{pool_slot};
ghost use Rattle.arrays.specs.Arrays.{slot_set};
ghost use Rattle.drain.specs.Firsts.{first_below, reads, floor_after};

use arrays::{COUNTS, LOGGED, PLACE, POOL, SETS};
use masks::has_site;
use sets::{POSTINGS, WORDS};

// The form DELIVER, the last.
const DELIVER: usize = site::DELIVER as usize;

// The lowest bit of a word; 64 if it is 0.
fn lowest_bit(word: u64) -> usize
    ensures { result ≡ first_below (has_bit word) 64 }
{
    u64::trailing_zeros(word) as usize
}

// The lowest posting of the pool; the capacity if it is empty.
pub fn lowest_pooled(words: &[u64; SETS]) -> usize
    ensures { result ≡ first_below (has (slot_set words.now pool_slot)) capacity }
{
    for k in 0..WORDS {
        let low = lowest_bit(words[WORDS * POOL + k]);
        if low < 64 {
            return 64 * k + low;
        }
    }
    POSTINGS
}

// The lowest of n sites that is not down and whose place is below the log's count; n if there is none.
pub fn next_reader(counts: &[usize; COUNTS], n: u8, down: u8) -> usize
    requires { n ≤ sites }
    ensures { result ≡ first_below (reads counts.now down) n }
{
    for p in 0..n {
        if has_site(down, p) {
            continue;
        }
        let i = p as usize;
        if counts[PLACE + i] < counts[LOGGED] {
            return i;
        }
    }
    n as usize
}

// From which cell on the next search has to look, after a receipt: from the message's own, or from that of a relay of DELIVER, if it is lower.
pub fn floor_after(taken: usize, form: usize, m: usize, to: usize) -> usize
    ensures { result ≡ floor_after taken form m to }
{
    if form < DELIVER {
        return taken;
    }
    let relayed = flight::cell(form, m, to);
    if relayed < taken {
        return relayed;
    }
    taken
}
