// A pass through the record of a site of a board at work, where it lies: its postings posted line by line from zeros, and its places counted.
// Rests on books for what a posting does, on views for rows, on arrays for where a record lies. Nothing is copied but the row of a line.
#![tactic(auto)]

ghost use Rattle.std.specs.Prelude.{◌<◌, ◌≡◌, length};
ghost use Rattle.posting.specs.Records.{numbers_of};
ghost use Rattle.books.specs.Books.{blank, books, sheet_of};
ghost use Rattle.books.specs.Bounds.{Postable};
ghost use Rattle.site.specs.Sites.{sites};
ghost use Rattle.views.specs.Views.{record_in, table_of};

use arrays::{Arrays, DELIVERED, RECORD};
use books::{Sheet, blank, change, net_all, trade};
use posting::{TRADE, net_of_all};
use sets::{POSTINGS, wide};
use views::row_of;

// What a pass through a record gives: its sheet, and how many of its places were visited.
#[derive(Drop)]
pub struct Passed {
    pub sheet: Sheet,
    pub places: usize,
}

// A pass through the record of a site. A TRADE changes accounts a and b, a NET of every account all of them, any other posting account a; the sheet
// is changed in place, so that it is not copied for each line.
pub fn pass_at(board: &Arrays, site: usize) -> Passed
    requires { (site < sites) × Postable (table_of board.now) (record_in board.now site) }
    ensures sheet_value { result.sheet ≡ sheet_of (books blank (table_of board.now) (numbers_of (record_in board.now site))) }
    ensures places_value { result.places ≡ length (numbers_of (record_in board.now site)) }
{
    let mut sheet = blank();
    let mut places = 0;
    let count = board.counts[DELIVERED + site];
    let from = RECORD + site * POSTINGS;
    for i in 0..count {
        let m = wide(board.bytes[from + i]);
        let p = row_of(board, m);
        if p.kind == TRADE {
            let a = wide(p.a);
            let s = sheet.accounts[a];
            let t = trade(p, p.a, s);
            sheet.accounts[a] = t;
            let b = wide(p.b);
            let u = sheet.accounts[b];
            let v = trade(p, p.b, u);
            sheet.accounts[b] = v;
        } else if net_of_all(p.kind, p.a, p.b) {
            sheet = net_all(sheet);
        } else {
            let k = wide(p.a);
            let s = sheet.accounts[k];
            let t = change(p, p.a, s);
            sheet.accounts[k] = t;
        }
        places += 1;
    }
    Passed { sheet, places }
}
