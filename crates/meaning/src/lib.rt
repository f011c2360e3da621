// Theorems, no code: the tree that a handle stands for, and what meet, dual, glb, lub and make_ro do to it. proofs/Seen.antt is the place to begin.

#![tactic(auto)]
