// What is stated of every run file: the sites that are up show the same figures, and no statement is too long; no function.
// Rests on agreement and statements.
#![tactic(auto)]
