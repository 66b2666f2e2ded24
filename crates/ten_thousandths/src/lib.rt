// A number of ten-thousandths in whole ones, rounded up, worked from 10,000 times powers of two, largest first, by subtracting and
// comparing (document 02, W4): nothing here divides, takes a remainder or shifts to the right. Rests on std, whose difference wraps.
#![tactic(auto)]

ghost use Rattle.std.specs.Prelude.{◌≡◌, ◌^◌, ◌<◌};
ghost use Rattle.ten_thousandths.specs.Rounding.{ten_thousandths};
ghost use Rattle.ten_thousandths.specs.Parts.{lessened};

// How many parts a whole one has.
const WHOLE: u64 = 10_000;

// How many powers of two are tried, 2^49 the first and 2^0 the last: 10,000 times 2^50 is more than 2^63.
const POWERS: u32 = 50;

// What is left of a number of ten-thousandths, and how many whole ones were taken from it.
#[derive(Drop)]
pub struct Part {
    pub rest: u64,
    pub taken: u64,
}

impl Part {
    // 10,000 times 2^k taken away, if there is as much. If there is not, the difference wraps and is more than what there was, so
    // comparing the two tells. Comparing first would leave a jump that no processor foresees (docs/BENCHMARK.md).
    // The bound on what was taken keeps the sum from overflow.
    fn less(self, k: u32) -> Part
        requires { (k < 50) × (self.taken < 2 ^ 51) }
        ensures { result ≡ lessened self k }
    {
        let piece = WHOLE << k;
        let left = self.rest.wrapping_sub(piece);
        if self.rest < left {
            return self;
        }
        Part {
            rest: left,
            taken: self.taken + (1 << k),
        }
    }
}

// So many ten-thousandths in whole ones: one more if anything is left after the last power.
pub fn rounded_up(parts: u64) -> u64
    requires { parts < 2 ^ 63 }
    ensures { result ≡ ten_thousandths parts }
{
    let mut part = Part {
        rest: parts,
        taken: 0,
    };
    for k in (0..POWERS).rev() {
        part = part.less(k);
    }
    if part.rest == 0 {
        part.taken
    } else {
        part.taken + 1
    }
}
