// Choosing, compared with a trial of every set of taxa, as the patient editor of document 01 would make it: on small outlines,
// with and without headings and locks, both ways, at every count up to the sum of prices. A line is printed for each outline and
// way, `ok` if all is alike, and each difference if not. The last two lines have the number of outlines; that of calls which no set
// fits; and that of values compared: columns, marks, the answers' numbers, and each cell of the buffers that should be 0 or as it
// was.
#![tactic(auto)]

mod made;
mod random;
mod sets;
mod trial;

use std::io;
use trial::{Tally, Trial};

fn main(rt: HostRuntime) -> io::Result<()> {
    let mut trial = Trial {
        rt: &rt,
        tally: Tally::default(),
    };
    trial.tied()?;
    trial.shaped()?;
    trial.interleaved()?;
    trial.headings()?;
    trial.locks()?;
    trial.random()?;
    println!(rt; "{}", trial.tally)
}
