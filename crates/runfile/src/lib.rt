// A run file run and printed, and what is shown of the board that the run ends on.
// Rests on whole_board and printer.
#![tactic(auto)]

ghost use Rattle.std.specs.Prelude.{◌≡◌};
ghost use Rattle.site.specs.declared.Setup.{Setup};
ghost use Rattle.machine.specs.View.{view};
ghost use Rattle.runfile.specs.Program.{ended_on};

use arrays::{Arrays, DOWN};
use printer::Ended;
use views::log_of;
use whole_board::figures::records_of;

pub mod begin;
pub mod event;
pub mod run;

// What is shown of a board at work of n sites, of which it is known whether it is quiet.
pub fn ended_on(board: &Arrays, n: u8, quiet: bool) -> Ended
    ensures { (setup : Setup) → n ≡ setup.n → result ≡ ended_on (view setup board.now) quiet }
{
    Ended {
        n,
        down: board.bytes[DOWN],
        records: records_of(board),
        log: log_of(board),
        quiet,
    }
}
