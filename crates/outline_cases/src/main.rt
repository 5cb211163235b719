// The check and the finder of outlines, run on cases whose answers documents 01 and 02 settle. A line is printed for each
// case: what is special about the outline, and the refusal's number and place, `0 0` if there is none; or the plate to find,
// and the fields of the record found: next, first, length, price, plate, and whether it is locked.
#![tactic(auto)]

mod checks;
mod finds;
mod show;

use std::io;

fn main(rt: HostRuntime) -> io::Result<()> {
    checks::sizes(&rt)?;
    checks::fields(&rt)?;
    checks::locks(&rt)?;
    checks::links_to_later(&rt)?;
    checks::links_in_range(&rt)?;
    checks::naming(&rt)?;
    checks::single_members(&rt)?;
    checks::places(&rt)?;
    checks::order(&rt)?;
    checks::plates_alike(&rt)?;
    checks::interleaved(&rt)?;
    finds::in_accepted(&rt)?;
    finds::locks(&rt)?;
    finds::in_refused(&rt)
}
