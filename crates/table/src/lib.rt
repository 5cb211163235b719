// The table of choosing: rows of candidates pushed through the links of an outline. One promise to the crate above: `fill` leaves in
// each column of the top row what the exhaustive search ends with. These functions require what that crate proves. Memory and width,
// outline and record go side by side, for the reasons in cells/src/memory.rt and outline/src/fields.rt; conditions are joined by `|` for that in
// outline/src/rules.rt.
#![tactic(auto)]

mod push;
mod spread;
mod taxa;
mod top;

pub use top::{best_at, fill};
