// What listing a set tells.

// The number of rows, and both of their sums.
#[derive(Clone, Copy, Debug, PartialEq, Eq)]
pub struct Figures {
    pub rows: u32,
    pub quarters: u32,
    pub diversity: u32,
}
