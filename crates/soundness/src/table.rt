// The table of a board, tested: its rows, and the set of the postings offered.
// Rests on posting and sets.
ghost use Rattle.std.specs.Prelude.{◌≡◌};
ghost use Rattle.soundness.specs.Parts.{all_offered, row_sound, table_sound};

use posting::{Posting, Table};
use sets::{POSTINGS, Set};

// The owner is one of n sites, and the fields are within the field rule.
fn row_ok(n: u8, p: Posting) -> bool
    ensures { result ≡ row_sound n p }
{
    p.owner < n && p.fields_ok()
}

// No more rows than the capacity, all of which pass.
pub fn table_ok(n: u8, table: Table) -> bool
    ensures { result ≡ table_sound n table }
{
    table.count <= POSTINGS && table.rows[..table.count].iter().all(|p| row_ok(n, *p))
}

// The postings offered, as a set.
pub fn offered_set(count: usize) -> Set
    ensures { result ≡ all_offered count }
{
    let mut all = Set::empty();
    for x in 0..POSTINGS {
        all = all.with_if(x, posting::offered_by(count, x));
    }
    all
}
