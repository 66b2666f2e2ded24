// A SECOND that overtakes FIRST, and cuts of steps, evaluated on the definitions; there is no function.
// Rests on cases.
#![tactic(auto)]
