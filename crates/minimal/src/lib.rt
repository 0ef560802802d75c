// The smallest table of a cascade. Definitions and laws only: specs/ and proofs/.
#![tactic(auto)]
