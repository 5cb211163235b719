// The two ways of counting diversity.
use std::fmt;

// A way's number is the one that calls take.
#[derive(Clone, Copy, PartialEq, Eq)]
pub enum Way {
    Rooted = 0,
    Unrooted = 1,
}

pub const BOTH: [Way; 2] = [Way::Rooted, Way::Unrooted];

impl fmt::Display for Way {
    fn fmt<W: fmt::Write>(&self, f: &mut fmt::Formatter<W>) -> fmt::Result {
        match self {
            Way::Rooted => write!(f, "rooted"),
            Way::Unrooted => write!(f, "unrooted"),
        }
    }
}
