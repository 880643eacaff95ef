// Laws of counting: there is no code here.
#![tactic(auto)]
