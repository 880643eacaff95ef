// Statements and their proofs alone: whatever a member calls, the marks are not told.
#![tactic(auto)]
