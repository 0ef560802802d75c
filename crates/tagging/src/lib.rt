// What the run of a book answers, and its numbers. Definitions and laws only: specs/ and proofs/.
#![tactic(auto)]
