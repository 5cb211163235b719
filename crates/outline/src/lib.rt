// Outlines: reading their records, checking them, and finding the record of a plate. Layout software calls `check`, `find` and
// `find_record`, which ask nothing of the caller. `checker`, `fields`, `limits` and `rules` are public for the crates above: a reader
// of a field requires that the record is there, `check_records` that there are at most 127, `holder_of` that there are so many.
#![tactic(auto)]

pub mod checker;
pub mod fields;
mod finder;
pub mod limits;
pub mod rules;

pub use checker::check;
pub use finder::{find, find_record};
