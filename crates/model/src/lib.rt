// What a desk of document 01 is and what each call does to it: definitions in specs/, laws that many crates cite in proofs/.
#![tactic(auto)]
