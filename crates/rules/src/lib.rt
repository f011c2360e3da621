// Columns of rules, of which the first that fits decides: what those of meet, of the walks and of the calls that tell of types share. The crate has no
// code.
#![tactic(auto)]
