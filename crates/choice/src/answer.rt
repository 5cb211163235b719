// What choosing tells.

// The diversity, cost and number of taxa of the best set, and how many quarters can go with the diversity unchanged.
#[derive(Clone, Copy, Debug, PartialEq, Eq)]
pub struct Figures {
    pub diversity: u32,
    pub cost: u32,
    pub taxa: u32,
    pub spare: u32,
}
