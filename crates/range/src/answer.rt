// What a range of prices tells.
use choice::Figures as Choice;

// The choice at high prices, whose diversity is the floor, and the best diversity at low prices, the roof.
#[derive(Clone, Copy, Debug, PartialEq, Eq)]
pub struct Figures {
    pub choice: Choice,
    pub roof: u32,
}
