// The scope's reports, tried on the definitions: one table, and a single claim over it. No code.
#![tactic(auto)]
