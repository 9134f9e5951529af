// The meaning of System S: definitions in specs/, theorems in proofs/. There is no code here.
#![tactic(auto)]
