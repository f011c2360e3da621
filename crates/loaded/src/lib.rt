// What a loaded store is: that what is saved is loaded, and that what is loaded was saved. Theorems, no code.

#![tactic(auto)]
