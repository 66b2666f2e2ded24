// The books agree: demand 3, for every list of calls; no function.
// Rests on drain, invariants and broadcast.
#![tactic(auto)]
