// Where an edit cuts and how many of its cuts it made, in specs/, and the law that this is the growth in chunks, in proofs/.
#![tactic(auto)]
