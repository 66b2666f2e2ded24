// The board that the flat arrays show, taken off them.
// Rests on views for its parts. The three arrays of what is in flight go into the board as they are.
ghost use Rattle.std.specs.Prelude.{◌≡◌};
ghost use Rattle.machine.specs.View.{view};

use crate::Board;
use arrays::{Arrays, DOWN, POOL, load};
use flight::Flight;
use site::Setup;
use views::{entries_of, log_of, sites_of, table_of, tallies_of};

// The board.
pub fn board_of(arrays: &Arrays, setup: Setup) -> Board
    ensures { result ≡ view setup arrays.now }
{
    Board {
        setup,
        down: arrays.bytes[DOWN],
        table: table_of(arrays),
        sites: sites_of(arrays),
        tallies: tallies_of(arrays),
        flight: Flight {
            masks: arrays.masks,
            good: arrays.good,
            carried: arrays.carried,
        },
        pool: load(&arrays.sets, POOL),
        entries: entries_of(arrays),
        log: log_of(arrays),
    }
}
