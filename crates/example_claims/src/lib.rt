// Worked examples of the rules. There is no code here.
#![tactic(auto)]
