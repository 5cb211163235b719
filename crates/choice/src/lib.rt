// Choosing: which taxa of an outline are best for a page count, and the curve of all counts up to it. Way and buffers are C's, one by one.
// `choose` asks nothing of its caller. What it is made of, `judge` and `solver`, serves the crates above that choose on several outlines.
#![tactic(auto)]

mod answer;
mod chooser;
mod curve;
pub mod judge;
mod marks;
pub mod solver;

pub use answer::Figures;
pub use chooser::choose;
pub use judge::MOST_COUNT;
