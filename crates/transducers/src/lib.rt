// Sequential transducers. Definitions and laws only: specs/ and proofs/.
#![tactic(auto)]
