// Definitions and laws alone: the record of the calls that are filed, what filing and withdrawing do to it and to the desk, and the marks of its entries.
#![tactic(auto)]
