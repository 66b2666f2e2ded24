// How a run file begins: the one test of a file and of its start, for all that runs one.
// Rests on decoder, whole_board and site.
ghost use Rattle.std.specs.Prelude.{◌≡◌};
ghost use Rattle.runfile.specs.Begins.{begun_of, begun_by};

use decoder::file::{setup_of, well_formed};
use site::Setup;
use steps::Refusal;
use whole_board::opening::start_fits;

// A file that is refused: its setup, and why.
#[derive(Drop)]
pub struct NotBegun {
    pub setup: Setup,
    pub refusal: Refusal,
}

// How a file begins, of any bytes: the setup of one that runs; of one that is refused its setup, too, and the refusal.
pub fn begin(input: &[u8]) -> Result<Setup, NotBegun>
    ensures { begun_of result ≡ begun_by input.now }
{
    let setup = setup_of(input);
    if !well_formed(input) {
        let refusal = Refusal::MalformedFile;
        return Err(NotBegun { setup, refusal });
    }
    match start_fits(setup.n, setup.f, setup.matrix) {
        Ok(()) => Ok(setup),
        Err(refusal) => Err(NotBegun { setup, refusal }),
    }
}
