// Document 01's marked cases A to L, and its table of numbers' own examples, proved by computation from the model's definitions. The tables stand in specs/.
#![tactic(auto)]
