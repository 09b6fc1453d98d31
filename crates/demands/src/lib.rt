// No code: the demands as theorems over the definition, in proofs/.
#![tactic(auto)]
