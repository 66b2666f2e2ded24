// The receipt of FIRST and of SECOND, in place on the arrays of a board at work.
// Rests on flat for what each does, on arrays and index, on site and steps.
#![tactic(auto)]

pub mod second;
