// Why a part, or a list, is not drafted.

// No tree can be read there, or a record begins after 127 others: then the rest of the text decides.
#[derive(Clone, Copy, Debug, PartialEq, Eq)]
pub enum Flaw {
    Malformed,
    TooMany,
}
