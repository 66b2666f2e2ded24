// A message that leaves with nothing sent: what the steps of all forms share. specs/Flat says what every event does to the arrays.
// Rests on arrays, on steps for the cut.
#![tactic(auto)]

ghost use Rattle.std.specs.Prelude.{◌<◌, ◌≡◌};
ghost use Rattle.steps.specs.Refusals.{answer_number};
ghost use Rattle.steps.specs.Receipts.{InRange};
ghost use Rattle.flat.specs.Flat.{flat, consumed};

use arrays::messages::take_out;
use arrays::{Arrays, DOWN, mark};
use site::Setup;
use steps::refusals::cut_allowed;
use steps::{Receipt, Refusal};

// A message leaves, its receiver sends nothing, and goes down if its step is cut.
pub fn consume(
    board: &mut Arrays,
    setup: Setup,
    form: usize,
    receipt: Receipt,
) -> Result<(), Refusal>
    requires { (form < 4) × InRange receipt }
    ensures { flat (answer_number result) board.new ≡ consumed setup board.old form receipt.posting receipt.from receipt.to receipt.cut }
{
    let Receipt {
        posting,
        from,
        to,
        cut,
    } = receipt;
    cut_allowed(setup.f, board.bytes[DOWN], 0, cut)?;
    take_out(&mut board.masks, form, posting, from, to);
    mark(&mut board.bytes, to, cut);
    Ok(())
}
