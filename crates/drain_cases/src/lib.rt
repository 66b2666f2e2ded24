// The order and the endings of a drain, evaluated on the definitions; there is no function.
// Rests on cases.
#![tactic(auto)]
