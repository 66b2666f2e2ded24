// DELIVER m received: at the first receipt it goes on to all but the receiver, unless that is m's owner, and then m is delivered.
// Rests on flat.
#![tactic(auto)]

ghost use Rattle.std.specs.Prelude.{◌<◌, ◌≡◌};
ghost use Rattle.sets.specs.Sets.{capacity};
ghost use Rattle.site.specs.Sites.{sites};
ghost use Rattle.delivery.specs.Delivery.{laid_of, with_laid};
ghost use Rattle.steps.specs.Refusals.{answer_number};
ghost use Rattle.steps.specs.Receipts.{InRange};
ghost use Rattle.flat.specs.Flat.{flat, delivered_to, flat_deliver};

use arrays::messages::{send, take_out};
use arrays::{Arrays, DOWN, GOT, OWNER, add_to, has_in, mark};
use delivery::deliver;
use flat::consume;
use masks::relay_to;
use site::Setup;
use steps::cuts::sites_to;
use steps::refusals::cut_allowed;
use steps::{Cut, Receipt, Refusal};

// Site p delivers m, unless its step is cut: nothing is delivered then.
fn deliver_to(board: &mut Arrays, p: usize, m: usize, cut: Cut)
    requires { (p < sites) × (m < capacity) }
    ensures { board.new ≡ with_laid board.old (delivered_to (laid_of board.old) p m cut) }
{
    match cut {
        Cut::Whole => deliver(board, p, m),
        Cut::After(_) => {}
    }
}

pub fn on_deliver(board: &mut Arrays, setup: Setup, receipt: Receipt) -> Result<(), Refusal>
    requires { InRange receipt }
    ensures { flat (answer_number result) board.new ≡ flat_deliver setup board.old receipt.posting receipt.from receipt.to receipt.cut }
{
    let Receipt {
        posting: m,
        from,
        to,
        cut,
    } = receipt;
    if has_in(&board.sets, GOT + to, m) {
        return consume(board, setup, 3, receipt);
    }
    let all = relay_to(setup.n, to as u8, board.bytes[OWNER + m]);
    cut_allowed(setup.f, board.bytes[DOWN], all, cut)?;
    let receivers = sites_to(all, cut);
    add_to(&mut board.sets, GOT + to, m);
    take_out(&mut board.masks, 3, m, from, to);
    send(&mut board.masks, 3, m, to, receivers);
    mark(&mut board.bytes, to, cut);
    deliver_to(board, to, m, cut);
    Ok(())
}
