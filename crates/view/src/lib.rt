// What a reader may see of an outline: a house reader all of it, a buyer's reader neither prices nor locks. Layout software calls
// `view_house` and `view_buyer`, which ask nothing of the caller. Outline and record go side by side, as in outline/src/fields.rt.
#![tactic(auto)]

mod buyer;
mod house;

pub use buyer::view_buyer;
pub use house::view_house;
