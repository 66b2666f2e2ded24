// The books of a board in a lent slice: of one site, and of all sites, up or down.
// Rests on machine, views, steps, books, posting and site.
ghost use Rattle.std.specs.Prelude.{ℕ, ◌<◌, ◌≤◌, ◌≡◌, true, List, map};
ghost use Rattle.books.specs.Books.{tabulate};
ghost use Rattle.books.specs.Bounds.{Postable};
ghost use Rattle.site.specs.declared.Site.{Site};
ghost use Rattle.site.specs.Sites.{sites};
ghost use Rattle.arrays.specs.Arrays.{arrays};
ghost use Rattle.views.specs.Views.{record_in, table_of};
ghost use Rattle.machine.specs.View.{view};
ghost use Rattle.machine.specs.Soundness.{is_sound};
ghost use Rattle.machine.specs.Calls.{answer_of};
ghost use Rattle.machine.specs.Figures.{showing, showing_all};

use arrays::Arrays;
use books::{FIGURES, Records};
use machine::{Answer, Board};
use posting::Record;
use site::{SITES, Setup};
use steps::Refusal;
use steps::refusals::site_acts;
use views::{record_of, table_of};

// The records of the sites, by number.
fn records(board: Board) -> Records
    ensures { result.sites ≡ map (λ (s : Site). s.delivered) board.sites }
{
    let empty = Record::empty();
    let mut records = Records {
        sites: [empty; SITES],
    };
    for s in 0..SITES {
        records.sites[s] = board.sites[s].delivered;
    }
    records
}

// The books of a site, of a sound board: they fill the first 64 numbers of the slice.
pub fn books_sound(board: Board, site: usize, out: &mut [i64]) -> Answer
    requires { is_sound board ≡ true }
    ensures value { result ≡ (showing board site out.old).answer }
    ensures out_after { out.new ≡ (showing board site out.old).slice }
    ensures result_value { answer_of result ≡ answer_of (showing board site out.old).answer }
{
    // showing figures is no act: no site counts as down
    if let Err(refusal) = site_acts(board.setup.n, 0, site) {
        return Answer::Refused(refusal.number());
    }
    if out.len() < FIGURES {
        return Answer::Refused(Refusal::ShortSlice.number());
    }
    let delivered = board.sites[site].delivered;
    books::books(board.table, delivered, books::blank(), out);
    Answer::Done
}

// The books of all sites, of a sound board: those of site s fill the 64 numbers of the slice from 64s on.
pub fn books_all_sound(board: Board, out: &mut [i64]) -> Answer
    requires { is_sound board ≡ true }
    ensures value { result ≡ (showing_all board out.old).answer }
    ensures out_after { out.new ≡ (showing_all board out.old).slice }
    ensures result_value { answer_of result ≡ answer_of (showing_all board out.old).answer }
{
    let n = usize::from(board.setup.n);
    if out.len() < FIGURES * n {
        return Answer::Refused(Refusal::ShortSlice.number());
    }
    let records = records(board);
    books::books_all(board.table, records, n, books::blank(), out);
    Answer::Done
}

// The records of the sites of a board at work, by number.
pub fn records_of(board: &Arrays) -> Records
    ensures { result.sites ≡ tabulate sites (record_in board.now) }
{
    let mut records = Records {
        sites: [record_of(board, 0); SITES],
    };
    for p in 0..SITES {
        records.sites[p] = record_of(board, p);
    }
    records
}

// The books of all sites, of a sound board at work: its table and records are all that they need.
pub fn books_all_at(board: &Arrays, setup: Setup, out: &mut [i64]) -> Answer
    requires { (setup.n ≤ sites) × ((p : ℕ) → p < setup.n → Postable (table_of board.now) (record_in board.now p)) }
    ensures { (sets masks good carried : List ℕ) → is_sound (view setup (arrays sets board.now.counts board.now.bytes board.now.amounts masks good carried)) ≡ true → (result ≡ (showing_all (view setup (arrays sets board.now.counts board.now.bytes board.now.amounts masks good carried)) out.old).answer) × (out.new ≡ (showing_all (view setup (arrays sets board.now.counts board.now.bytes board.now.amounts masks good carried)) out.old).slice) × (answer_of result ≡ answer_of (showing_all (view setup (arrays sets board.now.counts board.now.bytes board.now.amounts masks good carried)) out.old).answer) }
{
    let n = usize::from(setup.n);
    if out.len() < FIGURES * n {
        return Answer::Refused(Refusal::ShortSlice.number());
    }
    let table = table_of(board);
    let records = records_of(board);
    books::books_all(table, records, n, books::blank(), out);
    Answer::Done
}

// The books of a site.
pub fn books(board: Board, site: usize, out: &mut [i64]) -> Answer
    ensures value { result ≡ (showing board site out.old).answer }
    ensures out_after { out.new ≡ (showing board site out.old).slice }
    ensures result_value { answer_of result ≡ answer_of (showing board site out.old).answer }
{
    if board.is_sound() {
        return books_sound(board, site, out);
    }
    Answer::Refused(Refusal::Unsound.number())
}

// The books of all sites.
pub fn books_all(board: Board, out: &mut [i64]) -> Answer
    ensures value { result ≡ (showing_all board out.old).answer }
    ensures out_after { out.new ≡ (showing_all board out.old).slice }
    ensures result_value { answer_of result ≡ answer_of (showing_all board out.old).answer }
{
    if board.is_sound() {
        return books_all_sound(board, out);
    }
    Answer::Refused(Refusal::Unsound.number())
}
