// Look-ups on boards made by calls, evaluated on the definitions; there is no function.
// Rests on lookups, and on figure_cases for a board.
#![tactic(auto)]
