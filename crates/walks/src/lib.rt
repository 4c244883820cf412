// Theorems only: what each answer of a query means, said of places; and what it depends on.
#![tactic(auto)]
