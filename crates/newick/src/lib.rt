// Trees as text: the tokens of a text. What a tree is, what it is as text and as records, is in specs/.
#![tactic(auto)]

pub mod sign;
pub mod token;
