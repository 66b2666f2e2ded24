// The words of the audit's report: what is refused, and the pair that shows that records do not agree.
// Rests on audit_files for refusals, on audit_input for the answer, on amounts and printer.
#![tactic(auto)]

pub mod refusals;
pub mod witness;
