// What exported calls may give: their numbers, and the cuts of the edits. Statements in specs/, proofs in proofs/.
#![tactic(auto)]
