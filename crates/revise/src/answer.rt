// What revising a length tells.
use choice::Figures as Choice;

// How far the best diversity and the length moved: new minus old.
#[derive(Clone, Copy, Debug, PartialEq, Eq)]
pub struct Moved {
    pub best: i64,
    pub length: i64,
}

// The choice on the revised outline, and the two movements.
#[derive(Clone, Copy, Debug, PartialEq, Eq)]
pub struct Figures {
    pub choice: Choice,
    pub moved: Moved,
}
