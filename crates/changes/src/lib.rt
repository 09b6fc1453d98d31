// No code: what document 02 wants shown, item by item, as theorems over the definition, in proofs/.
#![tactic(auto)]
