// Lists of numbers, which every crate speaks of: tests, sums and searches over them, and buffers that are written over. The code is
// the walks through the numbers 1 to n.
#![tactic(auto)]

mod walks;

pub use walks::{count, lowest};
