// Definitions and laws alone: every call by name, and what it gives.
#![tactic(auto)]
