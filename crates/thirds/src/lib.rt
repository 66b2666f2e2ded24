// The receipt of THIRD and of DELIVER, in place on the arrays of a board at work.
// Rests on flat for what each does, on arrays and delivery, on site and steps.
#![tactic(auto)]

pub mod third;
