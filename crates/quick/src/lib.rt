// A quick choice, for while the count is being turned: the locked taxa, then at most so many picks, with a ceiling that the best
// diversity is never above. Nothing is asked of the caller. Outline, marks and ways go side by side, for the reason in picker.rt; conditions are
// joined by `&` and `|` for that in outline/src/rules.rt.
// Nothing is allocated: tables by record number are arrays.
#![tactic(auto)]

mod answer;
mod ceiling;
mod chooser;
mod judge;
mod picker;
mod picks;
mod sums;
mod ways;

pub use answer::Figures;
pub use chooser::quick;
