// Definitions and laws alone: a paper in a sheet, its records, what a run of it answers and prints.
#![tactic(auto)]
