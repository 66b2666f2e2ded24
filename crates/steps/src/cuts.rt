// A step as far as a cut lets it go: whom it sends to.
// Rests on masks. A cut after j sends reaches the first j.
ghost use Rattle.std.specs.Prelude.{◌≡◌};
ghost use Rattle.steps.specs.Cuts.{sites_to};

use crate::Cut;
use masks::first_sites;

// The sites of a mask that a step sends to before its cut.
pub fn sites_to(mask: u8, cut: Cut) -> u8
    ensures { result ≡ sites_to mask cut }
{
    match cut {
        Cut::Whole => {
            return mask;
        }
        Cut::After(j) => {
            return first_sites(mask, j);
        }
    }
}
