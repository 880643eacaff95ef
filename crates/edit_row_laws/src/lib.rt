// Laws of what a change of chunk rows alone keeps of a desk: there is no code here.
#![tactic(auto)]
