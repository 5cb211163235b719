// What writing tells.

// The counts of bytes and of pairs.
#[derive(Clone, Copy, Debug, PartialEq, Eq)]
pub struct Figures {
    pub bytes: usize,
    pub pairs: usize,
}
