// An event of a file, read from its bytes and done by a board at work.
// Rests on decoder for the bytes, on events for the calls, in place on a board at work.
ghost use Rattle.std.specs.Prelude.{◌≤◌, ◌≡◌};
ghost use Rattle.site.specs.Sites.{sites};
ghost use Rattle.steps.specs.Refusals.{answer_number};
ghost use Rattle.flat.specs.Flat.{flat, flat_perform, LogFits};
ghost use Rattle.decoder.specs.RunFile.{call_of, call_at};

use arrays::Arrays;
use calls::crash;
use decoder::file::{EVENT, HEADER, RECEIVE, byte_at, call_of, cut_of, event_count};
use events::perform;
use events::receipts::receive;
use site::Setup;
use steps::{Receipt, Refusal};

// The event of some bytes. Nearly all are receipts: they are handed on as numbers, so that no call is laid out in memory for them.
fn perform_event(board: &mut Arrays, setup: Setup, event: &[u8]) -> Result<(), Refusal>
    requires { (setup.n ≤ sites) × LogFits board.old.counts board.old.bytes }
    ensures { flat (answer_number result) board.new ≡ flat_perform setup board.old (call_of event.now) }
{
    if byte_at(event, 0) == RECEIVE {
        let form = byte_at(event, 1) as usize;
        let posting = byte_at(event, 2) as usize;
        let from = byte_at(event, 3) as usize;
        let to = byte_at(event, 4) as usize;
        let cut = cut_of(byte_at(event, 9));
        let receipt = Receipt {
            posting,
            from,
            to,
            cut,
        };
        return receive(board, setup, form, receipt);
    }
    perform(board, setup, call_of(event))
}

// Event k of a file; past the last one, a crash of site 0.
pub fn perform_at(board: &mut Arrays, setup: Setup, input: &[u8], k: usize) -> Result<(), Refusal>
    requires { (setup.n ≤ sites) × LogFits board.old.counts board.old.bytes }
    ensures { flat (answer_number result) board.new ≡ flat_perform setup board.old (call_at input.now k) }
{
    if k < event_count(input) {
        let at = HEADER + EVENT * k;
        return perform_event(board, setup, &input[at..at + EVENT]);
    }
    crash(board, setup, 0)
}
