// Demand 3, the theorem about every list of calls: the crate has no code. specs/Demand3.antt is the statement.

#![tactic(auto)]
