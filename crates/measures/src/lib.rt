// The measures of a set of taxa that is given by its marks: how many taxa, what they cost, how diverse they are. Each function
// requires an accepted outline. A type of accepted bytes, with a model, was tried here and is no plainer: it takes the requirement from two
// contracts and one field from the others' records, and puts a call into seven bodies that does nothing but tell the invariant, which a
// proof knows of a `&` in no other way; and it can't be `Copy`. Nothing is allocated: marks by record number are arrays.
#![tactic(auto)]

mod chain;
pub mod figures;
mod locks;
mod marks;

pub use locks::{locked_cost, locks_of, mark_locked};
pub use marks::{is_chosen, marked, measure};
