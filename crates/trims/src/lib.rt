// No functions: definitions in specs/, laws and closed cases in proofs/.
#![tactic(auto)]
