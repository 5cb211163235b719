// Sets that are listed.
use super::show::Call;
use samples::headings::{deep_pair, free_pair, interleaved, two_families};
use samples::outlines::{one_record, star, tree_a, tree_a_with_headings};
use std::io;

// Sets of an outline in which records 3, 4 and 5 are the taxa. Marks past those of the records may be anything. Label and outline are what cases
// differ in.
fn sets(rt: &(impl Print + AllocGlobal), label: &str, o: &[u8]) -> io::Result<()> {
    Call::new(o, 0, 30, &[0, 0, 1, 0, 1]).case(rt, label)?;
    Call::new(o, 1, 30, &[0, 0, 1, 0, 1, 1, 2, 255]).case(rt, label)?;
    Call::new(o, 0, 30, &[0, 0, 0, 1, 0]).case(rt, label)?;
    Call::new(o, 1, 30, &[0, 0, 0, 1, 0]).case(rt, label)?;
    Call::new(o, 0, 30, &[0, 0, 1, 1, 1]).case(rt, label)?;
    Call::new(o, 1, 30, &[0, 0, 1, 1, 1]).case(rt, label)
}

// A heading is in the row of the first chosen taxon below it. A lock is no part of the plate, and the set need not hold it. Rows
// are in record order.
fn trees(rt: &(impl Print + AllocGlobal)) -> io::Result<()> {
    sets(rt, "tree A", tree_a().bytes())?;
    sets(rt, "headings 1 and 2", tree_a_with_headings(1, 2).bytes())?;
    sets(rt, "11 and 13 locked", tree_a().locked(5).bytes())?;
    sets(rt, "interleaved", interleaved(1, 2).bytes())
}

// A group within a group, a root with one member, a single taxon, free taxa, a star, and a set that fits no page count.
fn others(rt: &(impl Print + AllocGlobal)) -> io::Result<()> {
    let two = two_families(3);
    let marks = [0, 0, 0, 1, 0, 1, 0, 1];
    Call::new(two.bytes(), 1, 30, &marks).case(rt, "families")?;
    let pair = deep_pair(1, 2);
    Call::new(pair.bytes(), 1, 30, &[0, 0, 1, 1]).case(rt, "deep pair")?;
    let one = one_record([0, 0, 5, 1, 4294967295]);
    Call::new(one.bytes(), 1, 30, &[1]).case(rt, "one taxon")?;
    let free = free_pair(3, 0, 1);
    Call::new(free.bytes(), 0, 30, &[0, 0, 1, 0, 0, 1]).case(rt, "free taxa")?;
    let dear = star(8, 1000000, 65535).headed(65535);
    let marks = [0, 1, 1, 1, 1, 1, 1, 1];
    Call::new(dear.bytes(), 0, 30, &marks).case(rt, "star")?;
    Call::new(dear.bytes(), 1, 30, &marks).case(rt, "star")
}

pub fn all(rt: &(impl Print + AllocGlobal)) -> io::Result<()> {
    trees(rt)?;
    others(rt)
}
