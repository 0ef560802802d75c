// Tables and their bytes. Definitions and laws only: specs/ and proofs/.
#![tactic(auto)]
