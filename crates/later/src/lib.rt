// Theorems alone: used words that came after others.

#![tactic(auto)]
