// Traces of the code: calls with their answers, each handed the state that the last one returned. There is no code here.
#![tactic(auto)]
