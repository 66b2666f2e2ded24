// What belongs to the sites of a board, tested: masks, records, sets and tallies name postings offered and sites below n only.
// Rests on site, masks, posting and sets.
ghost use Rattle.std.specs.Prelude.{◌≤◌, ◌≡◌};
ghost use Rattle.soundness.specs.Parts.{mask_sound, masks_sound, record_sound, sets_sound, site_sound, sites_sound, tally_sound, tallies_sound};

use masks::sites_below;
use posting::Record;
use sets::{POSTINGS, Set};
use site::{SITES, Site, Tally};

// A mask that is kept for posting m.
fn mask_ok(n: u8, count: usize, m: usize, mask: u8) -> bool
    ensures { result ≡ mask_sound n count m mask }
{
    mask == 0 || (posting::offered_by(count, m) && sites_below(n, mask))
}

// The masks of all postings, by number.
fn masks_ok(n: u8, count: usize, masks: &[u8; POSTINGS]) -> bool
    ensures { result ≡ masks_sound n count masks.now }
{
    for (m, mask) in masks.iter().enumerate() {
        if !mask_ok(n, count, m, *mask) {
            return false;
        }
    }
    true
}

// No more postings than the capacity, all offered, none twice. Those met so far are kept as a set, so that each number is looked at once.
pub fn record_ok(count: usize, postings: Record) -> bool
    ensures { result ≡ record_sound count postings }
{
    if POSTINGS < postings.count {
        return false;
    }
    let mut met = Set::empty();
    for number in &postings.numbers[..postings.count] {
        let m = usize::from(*number);
        if !posting::offered_by(count, m) {
            return false;
        }
        if met.has(m) {
            return false;
        }
        met = met.with(m);
    }
    true
}

// The sets of a site name postings offered only.
fn sets_ok(all: Set, s: Site) -> bool
    ensures { result ≡ sets_sound all s }
{
    s.seen.subset(all)
        && s.held.subset(all)
        && s.stepped.subset(all)
        && s.finished.subset(all)
        && s.got.subset(all)
}

// What belongs to a site; its log place is not past the log.
fn site_ok(n: u8, count: usize, logged: usize, all: Set, s: Site) -> bool
    ensures { result ≡ site_sound n count logged all s }
{
    sets_ok(all, s)
        && masks_ok(n, count, &s.heard)
        && masks_ok(n, count, &s.good)
        && record_ok(count, s.delivered)
        && s.place <= logged
}

// The first n sites.
pub fn sites_ok(n: u8, count: usize, logged: usize, all: Set, sites: [Site; SITES]) -> bool
    requires { n ≤ 7 }
    ensures { result ≡ sites_sound n count logged all sites }
{
    sites[..usize::from(n)]
        .iter()
        .all(|s| site_ok(n, count, logged, all, *s))
}

// The tally of posting m.
fn tally_ok(n: u8, count: usize, all: Set, m: usize, t: Tally) -> bool
    ensures { result ≡ tally_sound n count all m t }
{
    mask_ok(n, count, m, t.heard)
        && mask_ok(n, count, m, t.has)
        && (t.union.is_empty() || (posting::offered_by(count, m) && t.union.subset(all)))
}

// The tallies of all postings, by number.
pub fn tallies_ok(n: u8, count: usize, all: Set, tallies: [Tally; POSTINGS]) -> bool
    ensures { result ≡ tallies_sound n count all tallies }
{
    for (m, t) in tallies.iter().enumerate() {
        if !tally_ok(n, count, all, m, *t) {
            return false;
        }
    }
    true
}
