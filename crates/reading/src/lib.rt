// Reading a tree in Newick form, with its prices beside it, to an outline. Layout software calls `read`, which asks nothing of the
// caller; text, pairs and outline are C's, one by one. Outline and record go side by side, as in outline/src/fields.rt. Nothing is
// allocated: a draft is an array, with a count of its records.
#![tactic(auto)]

mod answer;
mod cursor;
mod draft;
mod flaw;
mod length;
mod pairs;
mod part;
mod place;
mod reader;
mod scan;

pub use answer::Figures;
pub use reader::read;
