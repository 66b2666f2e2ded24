// The machine's records pass the audit: a theorem over definitions; there is no function.
// Rests on agreement for one order of the records, and on audit_rule.
#![tactic(auto)]
