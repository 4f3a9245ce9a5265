// The claim that text sent is read back stands in specs/ and its proof in proofs/; no code.
#![tactic(auto)]
