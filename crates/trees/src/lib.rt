// Theorems, no code: types as trees, their order, least upper bounds and duals. proofs/Tree.antt is the place to begin.

#![tactic(auto)]
