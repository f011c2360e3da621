// Theorems on the makers: the crate has no code.

#![tactic(auto)]
