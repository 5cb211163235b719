// When one length is revised: the choice on the revised outline, and how far the best diversity moves. Nothing is asked of the caller; way and
// buffers are C's, one by one. In the contracts the record is `changed` and its new length `to`, since `record` and `length` have a meaning there.
#![tactic(auto)]

mod answer;
mod copier;
mod judge;
mod movement;
mod reviser;

pub use answer::{Figures, Moved};
pub use reviser::revise;
