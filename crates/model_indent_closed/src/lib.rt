// What `indent_with` leaves of a desk, chunk by chunk, in specs/, and the law that the walk of the model leaves it, in proofs/.
#![tactic(auto)]
