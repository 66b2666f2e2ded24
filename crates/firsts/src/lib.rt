// FIRST m received: m joins seen; SECOND goes to all, GOOD if seen meets C(m) in m alone, else BAD.
// Rests on flat.
#![tactic(auto)]

ghost use Rattle.std.specs.Prelude.{◌≡◌};
ghost use Rattle.steps.specs.Refusals.{answer_number};
ghost use Rattle.steps.specs.Receipts.{InRange};
ghost use Rattle.flat.specs.Flat.{flat, flat_first};

use arrays::messages::{say, send, take_out};
use arrays::{Arrays, DOWN, SEEN, load, mark, store};
use index::conflicts;
use masks::every_site;
use site::{Setup, alone};
use steps::cuts::sites_to;
use steps::refusals::cut_allowed;
use steps::{Receipt, Refusal};

pub fn on_first(board: &mut Arrays, setup: Setup, receipt: Receipt) -> Result<(), Refusal>
    requires { InRange receipt }
    ensures { flat (answer_number result) board.new ≡ flat_first setup board.old receipt.posting receipt.from receipt.to receipt.cut }
{
    let Receipt {
        posting: m,
        from,
        to,
        cut,
    } = receipt;
    let all = every_site(setup.n);
    cut_allowed(setup.f, board.bytes[DOWN], all, cut)?;
    let against = conflicts(&board.sets, &board.bytes, setup.matrix, m);
    let old = load(&board.sets, SEEN + to);
    let seen = old.with(m);
    let so = alone(seen, against, m);
    let receivers = sites_to(all, cut);
    store(&mut board.sets, SEEN + to, seen);
    take_out(&mut board.masks, 0, m, from, to);
    send(&mut board.masks, 1, m, to, receivers);
    say(&mut board.good, m, to, receivers, so);
    mark(&mut board.bytes, to, cut);
    Ok(())
}
