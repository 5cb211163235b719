// What reading tells.

// The number of records.
#[derive(Clone, Copy, Debug, PartialEq, Eq)]
pub struct Figures {
    pub records: usize,
}
