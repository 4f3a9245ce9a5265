// How a function's own local can be lent and comes back, a law in proofs/ for the functions that lend one; no code.
#![tactic(auto)]
