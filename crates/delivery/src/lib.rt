// Delivery into a record where it lies: a posting, and a log entry, each posting only if the record lacks it.
// Rests on arrays and sets. What a record has is kept as a set beside it, so that no delivery walks the record.
#![tactic(auto)]

ghost use Rattle.std.specs.Prelude.{◌+◌, ◌<◌, ◌≤◌, ◌≡◌};
ghost use Rattle.sets.specs.Sets.{capacity};
ghost use Rattle.site.specs.Sites.{sites};
ghost use Rattle.delivery.specs.Delivery.{laid_of, with_laid, delivered, delivered_all, bits_from, delivered_entry};

use arrays::{Arrays, DELIVERED, ENTRY, HAVE, RECORD, add_to, has_in, load};
use sets::{POSTINGS, WORDS};

// Site p delivers m, if its record lacks it; a full record stays.
pub fn deliver(board: &mut Arrays, p: usize, m: usize)
    requires { (p < sites) × (m < capacity) }
    ensures { board.new ≡ with_laid board.old (delivered (laid_of board.old) p m) }
{
    if has_in(&board.sets, HAVE + p, m) {
        return;
    }
    let count = board.counts[DELIVERED + p];
    if POSTINGS <= count {
        return;
    }
    add_to(&mut board.sets, HAVE + p, m);
    board.counts[DELIVERED + p] = count + 1;
    board.bytes[RECORD + p * POSTINGS + count] = m as u8;
}

// Site p delivers what is set in a word of a set, whose bits are numbered from `base` on, lowest first.
fn deliver_word(board: &mut Arrays, p: usize, base: usize, word: u64)
    requires { (p < sites) × (base + 64 ≤ capacity) }
    ensures { board.new ≡ with_laid board.old (delivered_all (laid_of board.old) p (bits_from 64 word base)) }
{
    let mut w = word;
    let mut x = base;
    while w != 0 {
        let t = w.trailing_zeros();
        x += t as usize;
        deliver(board, p, x);
        w = (w >> t) / 2;
        x += 1;
    }
}

// Site p delivers m's entry: the carried set in rising number, then m.
pub fn deliver_entry(board: &mut Arrays, p: usize, m: usize)
    requires { (p < sites) × (m < capacity) }
    ensures { board.new ≡ with_laid board.old (delivered_entry (laid_of board.old) p m) }
{
    let carried = load(&board.sets, ENTRY + m);
    for k in 0..WORDS {
        deliver_word(board, p, 64 * k, carried.words[k]);
    }
    deliver(board, p, m);
}
