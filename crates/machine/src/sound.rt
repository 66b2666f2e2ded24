// Whether a board is sound: none of the causes that document 01 lists under refusal 6.
// Rests on soundness and cells for the parts, on site and posting. The first part that fails ends the test.
ghost use Rattle.std.specs.Prelude.{◌≡◌};
ghost use Rattle.machine.specs.Soundness.{setup_ok, is_sound};
ghost use Rattle.machine.specs.SoundParts.{basis_sound};

use crate::Board;
use cells::cells_ok;
use masks::sites_below;
use posting::Table;
use site::Setup;
use soundness::pool::pool_ok;
use soundness::sites::{sites_ok, tallies_ok};
use soundness::table::{offered_set, table_ok};

// n, f and matrix, as at a start.
fn setup_ok(setup: Setup) -> bool
    ensures { result ≡ setup_ok setup }
{
    let n = setup.n as u32;
    let f = setup.f as u32;
    if n < 3 {
        return false;
    }
    if 7 < n {
        return false;
    }
    if n <= 2 * f {
        return false;
    }
    if !posting::symmetric(setup.matrix) {
        return false;
    }
    posting::has_fixed_pairs(setup.matrix)
}

// What the rest is tested by: setup and table, and those down.
fn basis_ok(setup: Setup, down: u8, table: Table) -> bool
    ensures { result ≡ basis_sound setup down table }
{
    if !setup_ok(setup) {
        return false;
    }
    if !table_ok(setup.n, table) {
        return false;
    }
    sites_below(setup.n, down)
}

impl Board {
    // Whether none of the causes of refusal 6 is on the board.
    pub fn is_sound(self) -> bool
        ensures { result ≡ is_sound self }
    {
        let setup = self.setup;
        let n = setup.n;
        let table = self.table;
        if !basis_ok(setup, self.down, table) {
            return false;
        }
        let count = table.count;
        let all = offered_set(count);
        let log = self.log;
        let sites = self.sites;
        if !sites_ok(n, count, log.count, all, sites) {
            return false;
        }
        let tallies = self.tallies;
        if !tallies_ok(n, count, all, tallies) {
            return false;
        }
        if !cells_ok(n, table, all, &self.flight.carried, &self.flight.masks) {
            return false;
        }
        let pool = self.pool;
        let entries = self.entries;
        pool_ok(table, sites, all, pool, entries, log)
    }
}
