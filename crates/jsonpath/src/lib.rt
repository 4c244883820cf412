// What RFC 9535 selects is what the walk finds: definitions in specs/, theorems in proofs/, no code.
#![tactic(auto)]
