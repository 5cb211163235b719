// Refusals: the rows of the tables that calls are judged by, with their numbers and places.
#![tactic(auto)]

mod refusal;

pub use refusal::Refusal;
