// Every call of document 01 keeps a desk well formed: laws, in proofs/.
#![tactic(auto)]
