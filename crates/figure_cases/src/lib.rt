// What stands in a slice that the books of a site, or of all sites, have filled, evaluated on the definitions; there is no function.
// Rests on cases.
#![tactic(auto)]
