// The texts of RFC 8259: their grammar, the value of each, and a recogniser that is proved exact. Definitions in specs/, theorems in proofs/, no code.
#![tactic(auto)]
