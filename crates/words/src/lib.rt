// Words of tags: definitions and laws, which all crates over words cite.
#![tactic(auto)]
