// The numbers of a loaded table, as definitions and laws.
#![tactic(auto)]

// No row begins there: the rest of the sentence is put out as it is.
pub const RESTING: u32 = u32::MAX;
