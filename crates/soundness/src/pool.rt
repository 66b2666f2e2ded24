// The pool and the log of a board, tested: a posting of theirs is in one of them, once, and finished by its owner.
// Rests on sites, on site, posting and sets.
ghost use Rattle.std.specs.Prelude.{◌≡◌};
ghost use Rattle.sets.specs.Sets.{set_of};
ghost use Rattle.posting.specs.Records.{contains};
ghost use Rattle.soundness.specs.Parts.{finished_set, entry_sound, entries_sound, pool_sound};

use crate::sites::record_ok;
use posting::{Record, Table};
use sets::{POSTINGS, Set};
use site::{SITES, Site};

// The postings of the log, as a set.
fn logged_set(log: Record) -> Set
    ensures { result ≡ set_of (contains log) }
{
    let mut logged = Set::empty();
    for (i, number) in log.numbers.iter().enumerate() {
        if log.count <= i {
            return logged;
        }
        logged = logged.with(usize::from(*number));
    }
    logged
}

// The postings that their owners have finished.
fn finished_set(table: Table, sites: [Site; SITES]) -> Set
    ensures { result ≡ finished_set table sites }
{
    let mut done = Set::empty();
    for (m, p) in table.rows.iter().enumerate() {
        let owner = usize::from(p.owner);
        if owner < SITES {
            done = done.with_if(m, sites[owner].finished.has(m));
        }
    }
    done
}

// A posting in pool or log is in one of them, finished, and its entry's set is within those offered.
fn entry_ok(pooled: bool, logged: bool, finished: bool, within: bool) -> bool
    ensures { result ≡ entry_sound pooled logged finished within }
{
    !(pooled || logged) || (!(pooled && logged) && finished && within)
}

// The entries of all postings, by number.
fn entries_ok(pool: Set, logged: Set, finished: Set, entries: [Set; POSTINGS], all: Set) -> bool
    ensures { result ≡ entries_sound pool logged finished entries all }
{
    for (m, entry) in entries.iter().enumerate() {
        let within = entry.subset(all);
        if !entry_ok(pool.has(m), logged.has(m), finished.has(m), within) {
            return false;
        }
    }
    true
}

// The pool, the log and their entries.
pub fn pool_ok(
    table: Table,
    sites: [Site; SITES],
    all: Set,
    pool: Set,
    entries: [Set; POSTINGS],
    log: Record,
) -> bool
    ensures { result ≡ pool_sound table sites all pool entries log }
{
    pool.subset(all)
        && record_ok(table.count, log)
        && entries_ok(
            pool,
            logged_set(log),
            finished_set(table, sites),
            entries,
            all,
        )
}
