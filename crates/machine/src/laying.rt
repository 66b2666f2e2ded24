// A board laid out on flat arrays.
// Rests on layout for each array. The three arrays of what is in flight are the board's own.
ghost use Rattle.std.specs.Prelude.{◌≡◌, true};
ghost use Rattle.machine.specs.Soundness.{is_sound};
ghost use Rattle.machine.specs.View.{view, Right};

use crate::Board;
use arrays::{Arrays, BYTES, COUNTS, SETS};
use flight::Flight;
use layout::{lay_amounts, lay_bytes, lay_counts, lay_sets};
use sets::POSTINGS;

// A sound board: the arrays show it, and what stands beside it is right. Inlined, so that the arrays are made where the caller has them.
#[inline(always)]
pub fn lay_out(board: Board) -> Arrays
    requires { is_sound board ≡ true }
    ensures { (view board.setup result ≡ board) × Right result }
{
    // The flight is the board's own: zeros in its place would only be written over.
    let Flight {
        masks,
        good,
        carried,
    } = board.flight;
    let mut arrays = Arrays {
        sets: [0; SETS],
        counts: [0; COUNTS],
        bytes: [0; BYTES],
        amounts: [0; POSTINGS],
        masks,
        good,
        carried,
    };
    lay_sets(
        &mut arrays.sets,
        board.table,
        board.sites,
        board.tallies,
        board.pool,
        board.entries,
    );
    lay_counts(
        &mut arrays.counts,
        board.table.count,
        board.log.count,
        board.sites,
    );
    lay_bytes(
        &mut arrays.bytes,
        board.down,
        board.table.rows,
        board.sites,
        board.tallies,
        board.log.numbers,
    );
    lay_amounts(&mut arrays.amounts, board.table.rows);
    arrays
}
