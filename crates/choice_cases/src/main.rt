// Choosing, run on cases whose answers documents 01 and 02 settle. A line is printed for each case: what is special about it;
// the answer's number and place; and how many of the buffers' bytes and numbers are wrong: changed by a refusal, or changed by a
// selection past what it writes. A selection's line also has, after the place, its diversity, cost, number of taxa and spare;
// then the marks, record by record; each column of the curve that is unlike the one before it, with its diversity and cost;
// and how many numbers of work, from the first on, are 0.
#![tactic(auto)]

mod headings;
mod limits;
mod locks;
mod refused;
mod show;
mod starred;

use std::io;

fn main(rt: HostRuntime) -> io::Result<()> {
    starred::tree_a_cases(&rt)?;
    starred::other_cases(&rt)?;
    starred::paired(&rt)?;
    limits::lengths(&rt)?;
    limits::counts(&rt)?;
    limits::prices(&rt)?;
    limits::records(&rt)?;
    limits::sizes(&rt)?;
    refused::ways(&rt)?;
    refused::rules(&rt)?;
    refused::buffers_too_short(&rt)?;
    refused::order_by_call(&rt)?;
    refused::order_by_outline(&rt)?;
    headings::group_heading(&rt)?;
    headings::two_headings(&rt)?;
    headings::root_heading(&rt)?;
    headings::above_the_parting(&rt)?;
    headings::dearer_than_count(&rt)?;
    headings::cousins(&rt)?;
    headings::free_of_no_length(&rt)?;
    headings::free_of_length_3(&rt)?;
    headings::prices(&rt)?;
    headings::records(&rt)?;
    headings::counts(&rt)?;
    locks::one_lock(&rt)?;
    locks::alone(&rt)?;
    locks::all_locked(&rt)?;
    locks::under_headings(&rt)?;
    locks::no_diversity(&rt)?;
    locks::alike(&rt)?;
    locks::twins(&rt)?;
    locks::order(&rt)?;
    locks::records(&rt)?;
    locks::counts(&rt)
}
