// What every call answers and leaves: definitions, no code.

#![tactic(auto)]
