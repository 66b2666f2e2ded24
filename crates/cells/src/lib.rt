// What is in flight on a board, tested cell by cell; blocks of empty cells are passed over at once.
// Rests on flight, site, masks, posting and sets. A part of the test for soundness.
#![tactic(auto)]

ghost use Rattle.std.specs.Prelude.{◌+◌, ◌^◌, ◌≤◌, ◌≡◌, eqb};
ghost use Rattle.flight.specs.Flights.{cells};
ghost use Rattle.cells.specs.Cells.{third_sound, cell_sound, block, block_sound, cells_sound, joined};

use flight::{LOADS, MASKS, PAIRS, THIRD};
use masks::sites_below;
use posting::Table;
use sets::{POSTINGS, Set};
use site::SITES;

// How many cells make a block.
const BLOCK: usize = 64;

const BLOCKS: usize = MASKS / BLOCK;

// A mask names this site only.
fn only_to(owner: u8, mask: u8) -> bool
    ensures { result ≡ eqb mask (2 ^ owner) }
{
    owner < 8 && mask == (1 << owner)
}

// A THIRD about m goes to its owner, and its set names postings offered.
fn third_ok(owner: u8, all: Set, carried: &[u64; LOADS], m: usize, from: usize, mask: u8) -> bool
    ensures { result ≡ third_sound owner all carried.now m from mask }
{
    only_to(owner, mask) && flight::carried_set(carried, m, from).subset(all)
}

// Cell k, whose posting has this owner.
fn cell_ok(
    n: u8,
    count: usize,
    owner: u8,
    all: Set,
    carried: &[u64; LOADS],
    k: usize,
    mask: u8,
) -> bool
    ensures { result ≡ cell_sound n count owner all carried.now k mask }
{
    if mask == 0 {
        return true;
    }
    let m = k / SITES % POSTINGS;
    let from = k % SITES;
    posting::offered_by(count, m)
        && from < usize::from(n)
        && sites_below(n, mask)
        && (k / PAIRS != THIRD || third_ok(owner, all, carried, m, from, mask))
}

// The receivers of a block of cells, from cell k on.
fn receivers(masks: &[u8; MASKS], k: usize) -> u8
    requires { k + block ≤ cells }
    ensures { result ≡ joined masks.now k block }
{
    let mut some = 0;
    for i in 0..BLOCK {
        some |= masks[k + i];
    }
    some
}

// A block of cells, from cell k on.
fn block_ok<'a>(
    n: u8,
    table: Table,
    all: Set,
    carried: &'a [u64; LOADS],
    masks: &'a [u8; MASKS],
    k: usize,
) -> bool
    requires { k + block ≤ cells }
    ensures { result ≡ block_sound n table all carried.now masks.now k }
{
    for i in 0..BLOCK {
        let mask = masks[k + i];
        if mask == 0 {
            continue;
        }
        let m = (k + i) / SITES % POSTINGS;
        let owner = table.rows[m].owner;
        if !cell_ok(n, table.count, owner, all, carried, k + i, mask) {
            return false;
        }
    }
    true
}

// Most blocks are empty, and are passed over at once: their receivers are joined without a branch, which the compiler does for many cells at a time.
pub fn cells_ok<'a>(
    n: u8,
    table: Table,
    all: Set,
    carried: &'a [u64; LOADS],
    masks: &'a [u8; MASKS],
) -> bool
    ensures { result ≡ cells_sound n table all carried.now masks.now }
{
    for j in 0..BLOCKS {
        let k = BLOCK * j;
        if receivers(masks, k) == 0 {
            continue;
        }
        if !block_ok(n, table, all, carried, masks, k) {
            return false;
        }
    }
    true
}
