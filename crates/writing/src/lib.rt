// Writing an outline as a text in Newick form and its prices beside it. Layout software calls `write`, which asks nothing of the
// caller; outline and buffers are C's, one by one. Outline and record go side by side, as in outline/src/fields.rt.
#![tactic(auto)]

mod answer;
mod chains;
mod pricing;
mod sizes;
mod unwritable;
mod writer;

pub use answer::Figures;
pub use writer::write;
