// The sheet of a marked set, run on outlines whose answers request 6 of document 02 settles. A line is printed for each call: what
// is special about it, the way, how many numbers the sheet has, and the marks; the answer's number and place; and how many numbers
// of the sheet are wrong: changed by a refusal, or changed past the rows. Where the set is listed, the line also has, after the
// place, the number of rows and both sums; then the rows, plate, quarters and diversity, unless there are more than 10. Where the
// marks are a choice's, the line has its number of taxa, cost and diversity in their place, which the number of rows and the sums
// should be.
#![tactic(auto)]

mod chosen;
mod refused;
mod sets;
mod show;

use std::io;

fn main(rt: HostRuntime) -> io::Result<()> {
    sets::all(&rt)?;
    chosen::all(&rt)?;
    refused::marks(&rt)?;
    refused::outlines(&rt)
}
