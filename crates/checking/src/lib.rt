// What the check of a table answers (document 02, W10), a `Result<Option<usize>, Refusal>`: none if the table and the book make the same of every sentence, else the
// number of tags of a sentence that is shown, on which they differ. Definitions and theorems: specs/ and proofs/.
#![tactic(auto)]

// The most tags of a sentence that is shown.
pub const SHOWN: usize = 1024;
