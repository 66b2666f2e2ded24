// The marked cases, evaluated on the definitions, and what every table of cases rests on; there is no function.
// Rests on runfile, drain, invariants, machine, flight, site, books, posting and sets.
#![tactic(auto)]
