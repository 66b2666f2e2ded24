// Many balances looked up at once, on a board at work and on any board: the record of each site named is gone through once, the others not at all.
// Rests on lookup_pairs for pairs, on passes for the pass through a record, on books for figures, on machine for what the arrays show.
#![tactic(auto)]

ghost use Rattle.std.specs.Prelude.{ℕ, ◌*◌, ◌<◌, ◌≤◌, ◌≡◌, true, List, cond, length};
ghost use Rattle.sets.specs.Masks.{has_bit};
ghost use Rattle.books.specs.Bounds.{Postable};
ghost use Rattle.site.specs.Sites.{sites};
ghost use Rattle.arrays.specs.Arrays.{arrays};
ghost use Rattle.views.specs.Views.{record_in, table_of};
ghost use Rattle.machine.specs.View.{view};
ghost use Rattle.machine.specs.Soundness.{is_sound};
ghost use Rattle.machine.specs.Calls.{answer_of};
ghost use Rattle.lookup_pairs.specs.Pairs.{visited_to};
ghost use Rattle.lookups.specs.Gathering.{places_at, numbers_at, with_block, Gathered};
ghost use Rattle.lookups.specs.Lookups.{looking_up};

use arrays::Arrays;
use books::{FIGURES, fill};
use lookup_pairs::{copy_lines, named_sites, pairs_fit};
use machine::laying::lay_out;
use machine::{Answer, Board};
use masks::has_site;
use passes::pass_at;
use site::{SITES, Setup};
use steps::Refusal;

// How many numbers the books of all sites that there can be have.
const ALL_FIGURES: usize = SITES * FIGURES;

// What a look-up answers, and how many places of records were visited.
#[derive(Drop)]
pub struct LookedUp {
    pub answer: Answer,
    pub visited: usize,
}

// If site p is named, a pass through its record, whose books fill the 64 numbers of the figures from 64p on; how many places were visited.
fn gather_site(board: &Arrays, named: u8, p: u8, figures: &mut [i64]) -> usize
    requires { (p < sites) × Postable (table_of board.now) (record_in board.now p) × (length figures.old ≡ 64 * sites) }
    ensures value { result ≡ cond (has_bit named p) (places_at board.now p) 0 }
    ensures figures_after { figures.new ≡ cond (has_bit named p) (with_block figures.old p (numbers_at board.now p)) figures.old }
{
    if has_site(named, p) {
        let site = p as usize;
        let passed = pass_at(board, site);
        let from = FIGURES * site;
        fill(passed.sheet, &mut figures[from..]);
        return passed.places;
    }
    0
}

// The books of those of the first n sites that are named, each in its 64 numbers of the figures; how many places were visited.
fn gather(board: &Arrays, named: u8, n: u8, figures: &mut [i64]) -> usize
    requires { (n ≤ sites) × ((p : ℕ) → p < n → Postable (table_of board.now) (record_in board.now p)) × (length figures.old ≡ 64 * sites) }
    ensures value { result ≡ visited_to n (has_bit named) (places_at board.now) }
    ensures gathered { Gathered (numbers_at board.now) named n figures.new }
{
    let mut visited = 0;
    for p in 0..n {
        let places = gather_site(board, named, p, figures);
        visited += places;
    }
    visited
}

// A look-up on a sound board at work: its table and the records of the sites named are all that it needs.
pub fn look_up_at(board: &Arrays, setup: Setup, pairs: &[u8], out: &mut [i64]) -> LookedUp
    requires { (setup.n ≤ sites) × ((p : ℕ) → p < setup.n → Postable (table_of board.now) (record_in board.now p)) }
    ensures { (sets masks good carried : List ℕ) → is_sound (view setup (arrays sets board.now.counts board.now.bytes board.now.amounts masks good carried)) ≡ true → (result.answer ≡ (looking_up (view setup (arrays sets board.now.counts board.now.bytes board.now.amounts masks good carried)) pairs.now out.old).answer) × (result.visited ≡ (looking_up (view setup (arrays sets board.now.counts board.now.bytes board.now.amounts masks good carried)) pairs.now out.old).visited) × (out.new ≡ (looking_up (view setup (arrays sets board.now.counts board.now.bytes board.now.amounts masks good carried)) pairs.now out.old).slice) }
{
    let n = setup.n;
    if let Err(refusal) = pairs_fit(pairs, n, out.len()) {
        return LookedUp {
            answer: Answer::Refused(refusal.number()),
            visited: 0,
        };
    }
    let named = named_sites(pairs);
    let mut figures = [0; ALL_FIGURES];
    let visited = gather(board, named, n, &mut figures);
    copy_lines(pairs, &figures[..], out);
    LookedUp {
        answer: Answer::Done,
        visited,
    }
}

// A look-up on a sound board.
fn look_up_sound(board: Board, pairs: &[u8], out: &mut [i64]) -> LookedUp
    requires { is_sound board ≡ true }
    ensures answer_value { result.answer ≡ (looking_up board pairs.now out.old).answer }
    ensures visited_value { result.visited ≡ (looking_up board pairs.now out.old).visited }
    ensures out_after { out.new ≡ (looking_up board pairs.now out.old).slice }
{
    let setup = board.setup;
    let arrays = lay_out(board);
    look_up_at(&arrays, setup, pairs, out)
}

// Up to 256 balances looked up on a board: four numbers for each pair of site and account, in the order given. What is refused leaves the slice as
// it was, with no place visited.
pub fn look_up(board: Board, pairs: &[u8], out: &mut [i64]) -> LookedUp
    ensures answer_value { result.answer ≡ (looking_up board pairs.now out.old).answer }
    ensures visited_value { result.visited ≡ (looking_up board pairs.now out.old).visited }
    ensures out_after { out.new ≡ (looking_up board pairs.now out.old).slice }
    ensures answer_value_2 { answer_of result.answer ≡ answer_of (looking_up board pairs.now out.old).answer }
{
    if board.is_sound() {
        return look_up_sound(board, pairs, out);
    }
    LookedUp {
        answer: Answer::Refused(Refusal::Unsound.number()),
        visited: 0,
    }
}
