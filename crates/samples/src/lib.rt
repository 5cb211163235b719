// What the test programs share: outlines, and what they print of an answer.
#![tactic(auto)]

pub mod buffers;
pub mod headings;
pub mod locks;
pub mod outlines;
pub mod ways;
pub mod words;
