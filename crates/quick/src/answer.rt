// What a quick choice tells.

// The diversity, cost and number of taxa of the marked set, and its ceiling.
#[derive(Clone, Copy, Debug, PartialEq, Eq)]
pub struct Figures {
    pub diversity: u32,
    pub cost: u32,
    pub taxa: u32,
    pub ceiling: u64,
}
