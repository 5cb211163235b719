// Candidates in two words each, and rows of them in lent memory. These functions require what the crates above prove.
#![tactic(auto)]

pub mod candidate;
pub mod memory;
