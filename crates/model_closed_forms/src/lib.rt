// The closed forms of the edits that the any-order rule speaks of, in specs/, and the laws that the walks of the model equal them, in proofs/.
#![tactic(auto)]
