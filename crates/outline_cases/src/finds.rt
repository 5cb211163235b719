// Cases of finding a plate's record.
use super::show::find;
use samples::outlines::{comb, one_record, star, tree_a, tree_a_with_headings};
use std::io;

// In tree A first. Plate 0 is no taxon's, though it stands in the groups.
pub fn in_accepted(rt: &impl Print) -> io::Result<()> {
    let a = tree_a();
    for plate in [11, 12, 13, 99, 0] {
        find(rt, "", a.bytes(), plate)?;
    }
    find(rt, " in one taxon", one_record([0, 0, 5, 1, 7]).bytes(), 7)?;
    let highest = one_record([0, 0, 1000000, 65535, 2147483647]);
    find(rt, " in one taxon", highest.bytes(), 2147483647)?;
    find(rt, " in one taxon", highest.bytes(), 65535)?;
    find(rt, " among 64 taxa", star(65, 0, 0).bytes(), 65)?;
    let headings = tree_a_with_headings(99, 65535);
    find(rt, " under headings 99 and 65,535", headings.bytes(), 12)?;
    find(rt, " under headings 99 and 65,535", headings.bytes(), 99)
}

// A locked taxon is found by its plate, and a number with bit 31 is no plate.
pub fn locks(rt: &impl Print) -> io::Result<()> {
    let some = tree_a().locked(5);
    for plate in [11, 12, 2147483659, 2147483660, 2147483648] {
        find(rt, " beside locks at 11 and 13", some.bytes(), plate)?;
    }
    let highest = one_record([0, 0, 5, 1, 4294967295]);
    find(rt, " in one locked taxon", highest.bytes(), 2147483647)?;
    find(rt, " in one locked taxon", highest.bytes(), 4294967295)?;
    let alike = tree_a().with(5, [0, 0, 5, 2, 2147483660]);
    find(rt, " beside plate 12, locked once", alike.bytes(), 11)
}

// A refused outline gives nothing, though the plate is there.
pub fn in_refused(rt: &impl Print) -> io::Result<()> {
    find(rt, " in 81 bytes", tree_a().first_bytes(81), 11)?;
    find(rt, " in 128 records", comb(128, 0, 0).bytes(), 2)?;
    let field = tree_a().with(5, [0, 0, 5, 65536, 13]);
    find(rt, " beside a bad field", field.bytes(), 11)?;
    let heading = tree_a_with_headings(0, 65536);
    find(rt, " under a heading of 65,536", heading.bytes(), 11)?;
    let link = tree_a().with(5, [6, 0, 5, 2, 13]);
    find(rt, " beside a bad link", link.bytes(), 11)?;
    find(rt, " among 65 taxa", star(66, 0, 0).bytes(), 2)?;
    let alike = tree_a().with(5, [0, 0, 5, 2, 12]);
    find(rt, " beside two plates alike", alike.bytes(), 11)
}
