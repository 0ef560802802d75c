// Whether two transducers do the same: definitions and laws.
#![tactic(auto)]
