// The run file of program `board`, read from bytes.
// Rests on steps and books. Document 01, "Program `board`", gives the format.
#![tactic(auto)]

pub mod file;
