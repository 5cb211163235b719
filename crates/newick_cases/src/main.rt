// The reader of trees as text, run on calls that request 1 of document 02 settles. A line is printed for each call: the text, with
// the number of a byte that is no sign of print, the pairs, and the size of the outline's buffer, or what is special about them
// where the text is long; the answer's number and place; and how many of the buffer's bytes are wrong: changed by a refusal, or
// changed past the records that are written. Where a text is read, the line also has, after the place, the number of records, and
// the fields of each: next, first, length, price, plate.
#![tactic(auto)]

mod grammar;
mod limits;
mod pairing;
mod refused;
mod show;
mod texts;
mod trees;

use std::io;

fn main(rt: HostRuntime) -> io::Result<()> {
    trees::all(&rt)?;
    grammar::all(&rt)?;
    limits::all(&rt)?;
    pairing::all(&rt)?;
    refused::all(&rt)
}
