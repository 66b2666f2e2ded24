// The pair of postings that shows where records depart: the lowest posting that differs at a line, and what the records say of the two.
// Rests on posting, and on audit_rule for what it means.
#![tactic(auto)]

ghost use Rattle.std.specs.Prelude.{◌≡◌, true, ◌&&◌, ℕ, ◌<◌, ◌≤◌, length, get_or, set};
ghost use Rattle.posting.specs.Conflicts.{conflict};
ghost use Rattle.audit_rule.specs.Audit.{finding, ahead_of};
ghost use Rattle.audit_rule.specs.Searches.{lowest_below};
ghost use Rattle.audit_rule.specs.Handed.{start_of, table_of, record_of, place_of};
ghost use Rattle.audit_rule.specs.Needs.{Rising, Numbered};
ghost use Rattle.audit_pair.specs.Pair.{stands, taken, with_site, sites_of, differing, raised, mark_of, one_sided, mark_differs, Fields, Markable};
ghost use Rattle.audit_pair.specs.Standings.{code_of};
ghost use Rattle.audit_pair.specs.Numbers.{found};

use audit_rule::{Postings, Records};

// What is answered of a pair: crossed, if site `here` has `first` ahead of `second` and site `there` has them the other way round; missing, if
// `here` has `second` without `first`, which `there` has ahead of it; apart, if `here` has `first`, `there` has `second`, and no site has both.
pub const CROSSED: u8 = 10;

pub const MISSING: u8 = 11;

pub const APART: u8 = 12;

#[derive(Drop)]
pub struct Found {
    pub code: u8,
    pub first: u16,
    pub second: u16,
    pub here: usize,
    pub there: usize,
}

// How x and y stand in a record: x ahead of y, y ahead of x, y alone, x alone.
#[derive(Clone, Copy, Debug, PartialEq, Eq)]
enum Standing {
    Forth,
    Back,
    YAlone,
    XAlone,
}

// The lowest site that has x ahead of y, y ahead of x, x alone and y alone; as many as there are sites if there is none.
#[derive(Drop)]
pub struct Sites {
    pub forth: usize,
    pub back: usize,
    pub first: usize,
    pub second: usize,
}

// Marks of a posting: it stands ahead of y in the record, in all lines, in both.
const IN_RECORD: u8 = 1;

const IN_ALL: u8 = 2;

const BOTH: u8 = 3;

// The first place of a posting in a record, the record's length if it is not there.
pub fn place_of(lines: &[u16], x: u16) -> usize
    ensures { result ≡ place_of x lines.now }
{
    lines.iter().position(|z| *z == x).unwrap_or(lines.len())
}

// How x and y stand in a record; None if neither is there, or x is y.
#[tactic(auto, unfolding(crate::specs::Pair::stands))]
fn stands(lines: &[u16], x: u16, y: u16) -> Option<Standing>
    ensures { code_of result ≡ stands x y lines.now }
{
    let end = lines.len();
    let i = place_of(lines, x);
    let j = place_of(lines, y);
    if i == j {
        None
    } else if i == end {
        Some(Standing::YAlone)
    } else if j == end {
        Some(Standing::XAlone)
    } else if i < j {
        Some(Standing::Forth)
    } else {
        Some(Standing::Back)
    }
}

// The lowest site of a sort, where site p is of it; n stands for none so far.
#[tactic(auto, unfolding(crate::specs::Pair::taken))]
fn taken(n: usize, p: usize, lowest: usize) -> usize
    ensures { result ≡ taken n p true lowest }
{
    if lowest == n { p } else { lowest }
}

// Site p, in which x and y stand so, is taken into the lowest ones.
#[tactic(auto, unfolding(crate::specs::Pair::with_site, crate::specs::Pair::taken))]
fn with_site(n: usize, p: usize, standing: Option<Standing>, sites: Sites) -> Sites
    ensures { result ≡ with_site n p (code_of standing) sites }
{
    match standing {
        None => sites,
        Some(Standing::Forth) => Sites {
            forth: taken(n, p, sites.forth),
            ..sites
        },
        Some(Standing::Back) => Sites {
            back: taken(n, p, sites.back),
            ..sites
        },
        Some(Standing::YAlone) => Sites {
            second: taken(n, p, sites.second),
            ..sites
        },
        Some(Standing::XAlone) => Sites {
            first: taken(n, p, sites.first),
            ..sites
        },
    }
}

// The lowest site of each sort, by one scan of the records.
fn sites_of(records: Records, x: u16, y: u16) -> Sites
    requires { Rising records.lines.now records.ends.now }
    ensures { result ≡ sites_of (length records.entry.ends.now) (record_of records.entry.lines.now records.entry.ends.now) x y }
{
    let n = records.ends.len();
    let mut sites = Sites {
        forth: n,
        back: n,
        first: n,
        second: n,
    };
    for p in 0..n {
        sites = with_site(n, p, stands(records.record_of(p), x, y), sites);
    }
    sites
}

// The answer's numbers together.
fn answer(code: u8, first: u16, second: u16, here: usize, there: usize) -> Found
    ensures { result ≡ record { code = code; first = first; second = second; here = here; there = there } }
{
    Found {
        code,
        first,
        second,
        here,
        there,
    }
}

// Nothing is wrong with the pair.
fn sound() -> Found
    ensures { result ≡ record { code = 0; first = 0; second = 0; here = 0; there = 0 } }
{
    answer(0, 0, 0, 0, 0)
}

// What the records say of x and y.
#[tactic(auto, unfolding(crate::specs::Pair::sites_of, audit_rule::specs::Audit::finding, crate::specs::Numbers::found))]
pub fn finding(records: Records, x: u16, y: u16) -> Found
    requires { Rising records.lines.now records.ends.now }
    ensures { result ≡ found (finding (length records.entry.ends.now) (record_of records.entry.lines.now records.entry.ends.now) x y) }
{
    let n = records.ends.len();
    let s = sites_of(records, x, y);
    if s.forth < n {
        if s.back < n {
            answer(CROSSED, x, y, s.forth, s.back)
        } else if s.second < n {
            answer(MISSING, x, y, s.second, s.forth)
        } else {
            sound()
        }
    } else if s.back < n {
        if s.first < n {
            answer(MISSING, y, x, s.first, s.back)
        } else {
            sound()
        }
    } else if s.second < n && s.first < n {
        answer(APART, x, y, s.first, s.second)
    } else {
        sound()
    }
}

// ---- the lowest posting that differs at a line

// A mark below a size is raised by it, once.
#[tactic(auto, unfolding(crate::specs::Pair::raised))]
fn mark(x: usize, size: u8, marks: &mut [u8])
    requires { (x < length marks.old) × (size < 128) }
    ensures { marks.new ≡ set marks.old x (raised size true (get_or marks.old x 0)) }
{
    if marks[x] < size {
        marks[x] += size;
    }
}

// Marks each posting that stands ahead of the first y.
fn mark_ahead(lines: &[u16], y: u16, size: u8, marks: &mut [u8])
    requires { Numbered lines.now (length marks.old) × (size < 128) }
    ensures { (x : ℕ) → get_or marks.new x 0 ≡ raised size (ahead_of x y lines.now) (get_or marks.old x 0) }
{
    for z in lines {
        if *z == y {
            return;
        }
        mark(usize::from(*z), size, marks);
    }
}

// Marks, from nothing, what stands ahead of y in a record, and in all lines.
fn mark_both(own: &[u16], lines: &[u16], y: u16, marks: &mut [u8])
    requires { Numbered own.now (length marks.old) × Numbered lines.now (length marks.old) }
    ensures { (x : ℕ) → get_or marks.new x 0 ≡ mark_of own.now lines.now y x }
{
    marks.fill(0);
    mark_ahead(own, y, IN_RECORD, marks);
    mark_ahead(lines, y, IN_ALL, marks);
}

// Whether x has a mark of one sort only and conflicts with y. The mark is tested first: it is one comparison, and settles most x.
#[tactic(auto, unfolding(crate::specs::Pair::one_sided), using(crate::proofs::Marks::conflict_at))]
fn mark_differs(mark: u8, matrix: u16, postings: Postings, x: usize, y: usize) -> bool
    requires { Fields postings.kinds.now postings.firsts.now postings.seconds.now postings.amounts.now × (x < length postings.kinds.now) × (y < length postings.kinds.now) }
    ensures { result ≡ one_sided mark && conflict matrix (table_of postings.entry.kinds.now postings.entry.firsts.now postings.entry.seconds.now postings.entry.amounts.now) x y }
{
    mark != 0
        && mark != BOTH
        && posting::conflicting(matrix, x, postings.posting_at(x), y, postings.posting_at(y))
}

// The lowest posting with a mark of one sort only that conflicts with y.
fn lowest_marked(matrix: u16, postings: Postings, y: usize, marks: &[u8]) -> Option<usize>
    requires { Fields postings.kinds.now postings.firsts.now postings.seconds.now postings.amounts.now × (y < length postings.kinds.now) × (length postings.kinds.now ≤ length marks.now) }
    ensures { result ≡ lowest_below (mark_differs matrix (table_of postings.entry.kinds.now postings.entry.firsts.now postings.entry.seconds.now postings.entry.amounts.now) marks.now y) (length postings.entry.kinds.now) }
{
    for x in 0..postings.kinds.len() {
        if mark_differs(marks[x], matrix, postings, x, y) {
            return Some(x);
        }
    }
    None
}

// The lowest posting that conflicts with y and stands ahead of it in a site's record, or in all lines, and not in both.
pub fn lowest_differing(
    matrix: u16,
    postings: Postings,
    records: Records,
    site: usize,
    y: u16,
    marks: &mut [u8],
) -> Option<usize>
    requires { Rising records.lines.now records.ends.now × (site < length records.ends.now) × Markable postings.kinds.now postings.firsts.now postings.seconds.now postings.amounts.now records.lines.now (start_of records.ends.now site) (get_or records.ends.now site 0) y marks.old }
    ensures { result ≡ lowest_below (differing matrix (table_of postings.entry.kinds.now postings.entry.firsts.now postings.entry.seconds.now postings.entry.amounts.now) (record_of records.entry.lines.now records.entry.ends.now site) records.entry.lines.now y) (length postings.entry.kinds.now) }
{
    mark_both(records.record_of(site), records.lines, y, marks);
    lowest_marked(matrix, postings, usize::from(y), marks)
}
