// The any-order rule of document 01: its premises and its statement in specs/, its proof in proofs/.
#![tactic(auto)]
