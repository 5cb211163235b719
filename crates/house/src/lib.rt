// The house form of an outline, which is one for each tree, and comparing two trees by it. Layout software calls `house_form` and `compare`,
// which ask nothing of the caller. Outline and record go side by side, as in outline/src/fields.rt. Nothing is allocated: tables by
// record number are arrays, and a list is links between records.
#![tactic(auto)]

mod chains;
mod comparing;
mod form;
mod judge;
mod plates;

pub use comparing::compare;
pub use form::house_form;
