// Long texts, and pairs for their taxa.
ghost use Rattle.std.specs.Prelude.{◌≤◌};

use std::alloc::{AllocError, Global};

// These pieces, each so many times.
pub fn repeated(alloc: Global, pieces: &[(&str, usize)]) -> Result<String, AllocError> {
    let mut text = String::new(alloc);
    for (piece, times) in pieces {
        text.extend(std::iter::repeat_n(*piece, *times))?;
    }
    Ok(text)
}

// Plate 7 in groups of one member, one within the other, so many records in all, and then this end.
pub fn nested(alloc: Global, records: usize, end: &str) -> Result<String, AllocError>
    requires { 1 ≤ records }
{
    let groups = records - 1;
    repeated(alloc, &[("(", groups), ("7", 1), (")", groups), (end, 1)])
}

// One group of the plates 101, 102 and so on up to this one, with a comma after each, and then this end.
pub fn star(alloc: Global, last: u32, end: &str) -> Result<String, AllocError> {
    let mut text = String::from_str(alloc, "(")?;
    for plate in 101..=last {
        write!(text, "{plate},")?;
    }
    text.push_str(end)?;
    Ok(text)
}

// A pair for each of the plates 101 and so on up to this one, with the price of 1 for the first of them, 2 for the next, and so on.
pub fn star_pairs(alloc: Global, last: u32) -> Result<Vec<u32>, AllocError> {
    let mut pairs = Vec::new(alloc);
    for (plate, price) in (101..=last).zip(1..) {
        pairs.extend_from_slice(&[plate, price])?;
    }
    Ok(pairs)
}
