// What compiling a book answers. Definitions and theorems only: specs/ and proofs/.
#![tactic(auto)]
