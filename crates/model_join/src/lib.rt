// Definitions and laws alone: two lists of records joined on one desk, and the any-order rule's premises as computed tests.
#![tactic(auto)]
