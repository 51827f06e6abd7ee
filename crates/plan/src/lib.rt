// Definitions and laws alone: the plan of a plant, of all its components together and of that of a named switch.
#![tactic(auto)]
