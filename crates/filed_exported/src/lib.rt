// Statements and their proofs alone: whatever is filed, withdrawn and marked by the exported calls, the desk is what the record gives when run.
#![tactic(auto)]
