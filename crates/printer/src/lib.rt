// What program `board` prints, written into a lent slice.
// Rests on books. Document 01, "Program `board`", gives the format.
#![tactic(auto)]

use books::Records;
use posting::Record;

pub mod print;

// What is shown of the board that a run ends on.
#[derive(Clone, Copy)]
pub struct Ended {
    // how many sites there are
    pub n: u8,
    // the sites that are down
    pub down: u8,
    pub records: Records,
    pub log: Record,
    pub quiet: bool,
}
