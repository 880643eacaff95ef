// The any-order rule of a join: its statements in specs/, their proofs in proofs/.
#![tactic(auto)]
