// What row 1 gives of the entries of a store: the crate has no code.

#![tactic(auto)]
