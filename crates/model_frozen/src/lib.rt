// That what is frozen stays, whatever edit is made: the statement in specs/, its proof in proofs/.
#![tactic(auto)]
