// What any list of calls of a typed sentence comes to (document 02, W2). Definitions and theorems only: specs/ and proofs/.
#![tactic(auto)]
