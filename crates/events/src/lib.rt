// Every event of a board at work, in place: the code of offer, receive, order, read and crash, whole and cut.
// Rests on receipts, on calls. A refusal leaves everything as it was.
#![tactic(auto)]

ghost use Rattle.std.specs.Prelude.{◌≤◌, ◌≡◌};
ghost use Rattle.site.specs.Sites.{sites};
ghost use Rattle.steps.specs.Refusals.{answer_number};
ghost use Rattle.flat.specs.Flat.{flat, flat_perform, LogFits};

use arrays::Arrays;
use calls::{crash, offer, order, read};
use receipts::receive;
use site::Setup;
use steps::{Call, Receipt, Refusal};

pub mod receipts;

// A call, taken by a board at work.
pub fn perform(board: &mut Arrays, setup: Setup, call: Call) -> Result<(), Refusal>
    requires { (setup.n ≤ sites) × LogFits board.old.counts board.old.bytes }
    ensures { flat (answer_number result) board.new ≡ flat_perform setup board.old call }
{
    match call {
        Call::Offer {
            site,
            kind,
            a,
            b,
            amount,
            cut,
        } => offer(board, setup, site, kind, a, b, amount, cut),
        Call::Receive {
            form,
            posting,
            from,
            to,
            cut,
        } => {
            let receipt = Receipt {
                posting,
                from,
                to,
                cut,
            };
            receive(board, setup, form, receipt)
        }
        Call::Order { posting } => order(board, posting),
        Call::Read { site, cut } => read(board, setup, site, cut),
        Call::Crash { site } => crash(board, setup, site),
    }
}
