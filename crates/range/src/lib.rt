// Prices not yet agreed: the choice at high prices, which is sure whatever is agreed, and the best diversity at low prices. Nothing is asked
// of the caller; way and buffers are C's, one by one.
#![tactic(auto)]

mod answer;
mod finder;
mod judge;
mod prices;

pub use answer::Figures;
pub use finder::range;
