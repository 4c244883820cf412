// Theorems only: every way of doing the job gives the same bits. Statements in specs/, proofs in proofs/.
#![tactic(auto)]
