// The writer of trees as text, run on outlines whose answers request 5 of document 02 settles. A line is printed for each call:
// what is special about the outline, and the sizes of the two buffers where they matter; the answer's number and place; and how
// many bytes and numbers of the buffers are wrong: changed by a refusal, or changed past what is written. Where an outline is
// written, the line also has, after the place, the counts of bytes and pairs; the text and the pairs, unless the text is long;
// what reading them gives, the number of records and whether they are the same bytes; and whether a second writing, of what was
// read, equals the first.
#![tactic(auto)]

mod refused;
mod room;
mod show;
mod trees;

use std::io;

fn main(rt: HostRuntime) -> io::Result<()> {
    trees::all(&rt)?;
    refused::all(&rt)?;
    room::all(&rt)
}
