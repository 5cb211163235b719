// Buffers that are too short, just long enough and longer.
use super::show::write_to;
use samples::outlines::{comb, one_record, tree_a};
use std::io;

// Tree A takes 23 bytes and 6 numbers.
fn tree_a_to(rt: &(impl Print + AllocGlobal), rooms: &[(usize, usize)]) -> io::Result<()> {
    for (bytes, numbers) in rooms {
        write_to(rt, "tree A", tree_a().bytes(), *bytes, *numbers)?;
    }
    Ok(())
}

// One taxon takes 4 bytes and 2 numbers.
fn one_taxon(rt: &(impl Print + AllocGlobal)) -> io::Result<()> {
    for (bytes, numbers) in [(4, 2), (3, 2), (4, 1)] {
        let one = one_record([0, 0, 5, 1, 7]);
        write_to(rt, "one taxon", one.bytes(), bytes, numbers)?;
    }
    Ok(())
}

// A comb of 127 records takes 1,345 bytes and 128 numbers.
fn most_records(rt: &(impl Print + AllocGlobal)) -> io::Result<()> {
    let most = comb(127, 1000000, 65535);
    write_to(rt, "comb", most.bytes(), 1345, 128)?;
    write_to(rt, "comb", most.bytes(), 1344, 128)
}

pub fn all(rt: &(impl Print + AllocGlobal)) -> io::Result<()> {
    // enough
    tree_a_to(rt, &[(23, 6), (24, 6), (23, 7), (24, 7)])?;
    // one short
    tree_a_to(rt, &[(22, 6), (23, 5), (22, 5), (22, 130), (1400, 5)])?;
    // empty
    tree_a_to(rt, &[(0, 6), (23, 0), (0, 0)])?;
    one_taxon(rt)?;
    most_records(rt)
}
