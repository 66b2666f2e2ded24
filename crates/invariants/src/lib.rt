// What every call keeps: the shape of a board, and its soundness; no function.
// Rests on machine.
#![tactic(auto)]
