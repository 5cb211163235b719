// The limits of an outline.

// The most records.
pub const MOST_RECORDS: usize = 127;

// The most taxa.
pub const MOST_TAXA: usize = 64;

// The longest branch.
pub const MOST_LENGTH: u32 = 1000000;

// The highest price.
pub const MOST_PRICE: u32 = 65535;

// Record numbers are below this, with 0 for no record.
pub const NUMBERS: usize = MOST_RECORDS + 1;
