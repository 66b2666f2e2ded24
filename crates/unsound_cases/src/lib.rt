// Boards unsound in each way, and odd ones that are sound, evaluated on the definitions; there is no function.
// Rests on cases.
#![tactic(auto)]
