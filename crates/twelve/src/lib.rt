// The twelve cases of document 01 in one table, and its traps in another: theorems, no code. specs/Cases.antt has both tables.

#![tactic(auto)]
