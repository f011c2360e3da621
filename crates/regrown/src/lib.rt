// A well-formed store without two equal entries is one that calls of makers grow from a fresh one: a theorem, no code. specs/Regrown.antt is the statement.

#![tactic(auto)]
