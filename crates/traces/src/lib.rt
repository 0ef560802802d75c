// Each tag with the number of its rule. Definitions and laws only: specs/ and proofs/.
#![tactic(auto)]
