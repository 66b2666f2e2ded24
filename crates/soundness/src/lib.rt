// The parts of the test for soundness, document 01's refusal 6, each over what it reads alone.
// Rests on site, masks, posting and sets. What is in flight is tested in cells; machine puts the parts together to the test of a board.
#![tactic(auto)]

pub mod pool;
pub mod sites;
pub mod table;
