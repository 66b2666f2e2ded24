// Which postings a site lacks that others hold: how many, and the lowest; and how many postings there are.
// Rests on audit_rule for the records as they are handed over, and on audit_input for what stands in place of a kind.
#![tactic(auto)]

ghost use Rattle.std.specs.Prelude.{◌≡◌, ℕ, ◌<◌, ◌≤◌, cond, not, eqb, length, get_or};
ghost use Rattle.sets.specs.Below.{all_below, count};
ghost use Rattle.broadcast.specs.Lists.{mem};
ghost use Rattle.audit_rule.specs.Needs.{Numbered};
ghost use Rattle.audit_rule.specs.Searches.{lowest_below};
ghost use Rattle.audit_input.specs.Input.{unused};
ghost use Rattle.audit_lacks.specs.Needs.{Marked, Markable, Lacking};

use audit_input::NO_KIND;
use audit_rule::Records;

const ONLY_OTHERS: u8 = 1;

const HELD: u8 = 2;

// Every posting of the lines gets a mark.
fn mark_all(lines: &[u16], value: u8, marks: &mut [u8])
    requires { Numbered lines.now (length marks.old) }
    ensures { (x : ℕ) → get_or marks.new x 0 ≡ cond (mem x lines.now) value (get_or marks.old x 0) }
{
    for x in lines {
        marks[usize::from(*x)] = value;
    }
}

// Which postings a site holds, and which only others.
fn mark_lacked(records: Records, p: usize, marks: &mut [u8])
    requires { Markable records.lines.now records.ends.now (length marks.old) (length marks.old) × (p < length records.ends.now) }
    ensures { Marked records.entry.lines.now records.entry.ends.now marks.new p }
{
    marks.fill(0);
    mark_all(records.lines, ONLY_OTHERS, marks);
    mark_all(records.record_of(p), HELD, marks);
}

// How many postings below a bound only others hold.
fn count_lacked(marks: &[u8], bound: usize) -> usize
    requires { bound ≤ length marks.now }
    ensures { result ≡ count (λ x. eqb (get_or marks.now x 0) 1) bound }
{
    marks[..bound]
        .iter()
        .filter(|mark| **mark == ONLY_OTHERS)
        .count()
}

// The lowest of them.
fn lowest_lacked(marks: &[u8], bound: usize) -> Option<usize>
    requires { bound ≤ length marks.now }
    ensures { result ≡ lowest_below (λ x. eqb (get_or marks.now x 0) 1) bound }
{
    marks[..bound].iter().position(|mark| *mark == ONLY_OTHERS)
}

// What each site lacks: how many postings, and the lowest, the bound if there is none.
pub fn note_lacked(
    records: Records,
    bound: usize,
    marks: &mut [u8],
    counts: &mut [usize],
    lowests: &mut [usize],
)
    requires { Markable records.lines.now records.ends.now bound (length marks.old) × (length records.ends.now ≤ length counts.old) × (length records.ends.now ≤ length lowests.old) }
    ensures { Lacking records.entry.lines.now records.entry.ends.now counts.new lowests.new bound (length records.entry.ends.now) }
{
    for p in 0..records.ends.len() {
        mark_lacked(records, p, marks);
        counts[p] = count_lacked(marks, bound);
        lowests[p] = lowest_lacked(marks, bound).unwrap_or(bound);
    }
}

// How many postings there are.
pub fn count_postings(kinds: &[u8]) -> usize
    ensures { result ≡ count (λ x. not (unused kinds.now x)) (length kinds.now) }
{
    kinds.iter().filter(|kind| **kind != NO_KIND).count()
}

// Whether no site lacks any.
pub fn all_hold(n: usize, counts: &[usize]) -> bool
    requires { n ≤ length counts.now }
    ensures { result ≡ all_below (λ p. eqb (get_or counts.now p 0) 0) n }
{
    counts[..n].iter().all(|count| *count == 0)
}
