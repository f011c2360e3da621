// The definition of meet, and its laws: what it appends, and that its answers hold good in all used words that come later. There is no code here.

#![tactic(auto)]
