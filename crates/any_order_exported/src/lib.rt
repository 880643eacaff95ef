// The any-order rule for runs of the exported functions: its statement in specs/, its proof in proofs/.
#![tactic(auto)]
