// Pairs of site and account, as bytes: the first refusal, the sites that they name, and their lines copied out of the figures of sites.
// Rests on books for how figures stand, on steps for causes, on posting, masks and sets.
#![tactic(auto)]

ghost use Rattle.std.specs.Prelude.{◌+◌, ◌*◌, ◌≤◌, ◌≡◌, ◌++◌, leb, length, get_or, take, drop};
ghost use Rattle.sets.specs.Below.{any_below};
ghost use Rattle.masks.specs.SiteMasks.{room};
ghost use Rattle.steps.specs.CauseLists.{first_cause};
ghost use Rattle.steps.specs.Refusals.{answer_number};
ghost use Rattle.lookup_pairs.specs.Pairs.{pair_count, pair_causes, lines_of};
ghost use Rattle.lookup_pairs.specs.Gathered.{named_to, block_of, Within};

use books::FIGURES;
use masks::with_site;
use posting::ACCOUNTS;
use sets::wide;
use steps::Refusal;

// The most pairs that are looked up at once.
const PAIRS: usize = 256;

// How many numbers the line of a pair has.
const LINE: usize = 4;

// Whether some pair has the limit or more as its site (place 0) or as its account (place 1).
fn some_past(pairs: &[u8], place: usize, limit: u8) -> bool
    requires { place ≤ 1 }
    ensures { result ≡ any_below (λ i. leb limit (get_or pairs.now (2 * i + place) 0)) (pair_count pairs.now) }
{
    let count = pairs.len() / 2;
    for i in 0..count {
        if limit <= pairs[2 * i + place] {
            return true;
        }
    }
    false
}

// 7 and 18 of pairs, for n sites and a lent slice of so many numbers.
pub fn pairs_fit(pairs: &[u8], n: u8, room: usize) -> Result<(), Refusal>
    ensures { answer_number result ≡ first_cause (pair_causes n room pairs.now) }
{
    if some_past(pairs, 0, n) {
        return Err(Refusal::NoSite);
    }
    let count = pairs.len() / 2;
    if PAIRS < count {
        return Err(Refusal::BadPairs);
    }
    if some_past(pairs, 1, ACCOUNTS) {
        return Err(Refusal::BadPairs);
    }
    if room < LINE * count {
        return Err(Refusal::BadPairs);
    }
    Ok(())
}

// The sites that some pair names, as a mask.
pub fn named_sites(pairs: &[u8]) -> u8
    ensures { result ≡ named_to (pair_count pairs.now) pairs.now }
{
    let mut named: u8 = 0;
    let count = pairs.len() / 2;
    for i in 0..count {
        let site = pairs[2 * i];
        named = with_site(named, site);
    }
    named
}

// The four numbers of a line, from a place of the figures to a place of the slice.
fn copy_line(figures: &[i64], from: usize, at: usize, out: &mut [i64])
    requires { (from + 4 ≤ length figures.now) × (at + 4 ≤ length out.old) }
    ensures { out.new ≡ take at out.old ++ take 4 (drop from figures.now) ++ drop (at + 4) out.old }
{
    let position = figures[from];
    let rate = figures[from + 1];
    let called = figures[from + 2];
    let settled = figures[from + 3];
    out[at] = position;
    out[at + 1] = rate;
    out[at + 2] = called;
    out[at + 3] = settled;
}

// The line of each pair, in the order given, out of figures that have the 64 numbers of site s from 64s on; what lies beyond the lines stays.
pub fn copy_lines<'a>(pairs: &'a [u8], figures: &'a [i64], out: &mut [i64])
    requires { Within pairs.now × (64 * room ≤ length figures.now) × (4 * pair_count pairs.now ≤ length out.old) }
    ensures { out.new ≡ lines_of (block_of figures.now) pairs.now ++ drop (4 * pair_count pairs.now) out.old }
{
    let count = pairs.len() / 2;
    for i in 0..count {
        let site = wide(pairs[2 * i]);
        let account = wide(pairs[2 * i + 1]);
        copy_line(figures, FIGURES * site + LINE * account, LINE * i, out);
    }
}
