// A message received: refused, or handed on to the step of its form.
// Rests on thirds, delivers, seconds and firsts.
ghost use Rattle.std.specs.Prelude.{◌≤◌, ◌≡◌};
ghost use Rattle.site.specs.Sites.{sites};
ghost use Rattle.steps.specs.Refusals.{answer_number};
ghost use Rattle.flat.specs.Flat.{flat, flat_receive};

use arrays::messages::is_sent;
use arrays::{Arrays, DOWN};
use delivers::on_deliver;
use firsts::on_first;
use seconds::second::on_second;
use site::Setup;
use steps::refusals::message_arrives;
use steps::{Receipt, Refusal};
use thirds::third::on_third;

// Receive: the message leaves the flight, and its receiver takes the step of its form.
pub fn receive(
    board: &mut Arrays,
    setup: Setup,
    form: usize,
    receipt: Receipt,
) -> Result<(), Refusal>
    requires { setup.n ≤ sites }
    ensures { flat (answer_number result) board.new ≡ flat_receive setup board.old form receipt.posting receipt.from receipt.to receipt.cut }
{
    let Receipt {
        posting,
        from,
        to,
        ..
    } = receipt;
    message_arrives(setup.n, board.bytes[DOWN], from, to)?;
    if !is_sent(&board.masks, form, posting, from, to) {
        return Err(Refusal::NotInFlight);
    }
    match form {
        0 => on_first(board, setup, receipt),
        1 => on_second(board, setup, receipt),
        2 => on_third(board, setup, receipt),
        _ => on_deliver(board, setup, receipt),
    }
}
