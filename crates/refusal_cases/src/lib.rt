// Each refusal with its neighbours in the order, evaluated on the definitions; there is no function.
// Rests on cases.
#![tactic(auto)]
