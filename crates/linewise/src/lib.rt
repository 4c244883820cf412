// What the table of a text and the answer of a line mean: theorems, no code.
#![tactic(auto)]
