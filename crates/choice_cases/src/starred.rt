// The starred cases of document 01, and the outline of its listing.
use super::show::{Call, Sizes};
use samples::outlines::{Sample, one_record, pairs, star, tree_a};
use std::io;

// Tree A. Count 5 rooted is what the listing program prints in document 01.
pub fn tree_a_cases(rt: &(impl Print + AllocGlobal)) -> io::Result<()> {
    for (label, count, way) in [
        ("A1, rooted, count 2: plate 12 alone", 2, 0),
        ("A2, unrooted, count 2: the empty set", 2, 1),
        ("A3, unrooted, count 3: plates 12 and 13", 3, 1),
        ("A4, rooted, count 6: all three", 6, 0),
        ("A4, unrooted, count 6: all three", 6, 1),
        ("tree A, rooted, count 5: plates 11 and 13", 5, 0),
        ("tree A, unrooted, count 5: plates 11 and 13", 5, 1),
        ("tree A, rooted, count 0", 0, 0),
        ("tree A, unrooted, count 0", 0, 1),
        ("tree A, rooted, count 9", 9, 0),
    ] {
        Call::new(tree_a().bytes(), count, way).case(rt, label)?;
    }
    Ok(())
}

pub fn other_cases(rt: &(impl Print + AllocGlobal)) -> io::Result<()> {
    let b = Sample::new(&[[0, 2, 0, 0, 0], [0, 3, 7, 0, 0], [0, 0, 0, 2, 1]]);
    Call::new(b.bytes(), 2, 0).case(rt, "B1, rooted, count 2: diversity 7")?;
    Call::new(b.bytes(), 1, 0).case(rt, "B2, rooted, count 1: the empty set")?;
    let c1 = star(3, 4, 1);
    Call::new(c1.bytes(), 1, 0).case(rt, "C1, rooted, count 1: the lower record")?;
    let c2 = star(3, 0, 0);
    Call::new(c2.bytes(), 0, 0).case(rt, "C2, rooted, count 0: both, diversity 0")?;
    Call::new(c2.bytes(), 0, 1).case(rt, "C2, unrooted, count 0: both, diversity 0")?;
    let d = Sample::new(&[
        [0, 2, 0, 0, 0],
        [3, 0, 6, 3, 1],
        [4, 0, 5, 2, 2],
        [0, 0, 5, 2, 3],
    ]);
    Call::new(d.bytes(), 4, 0).case(rt, "D, rooted, count 4: the second and third")?;
    let e = one_record([0, 0, 5, 1, 7]);
    Call::new(e.bytes(), 1, 0).case(rt, "E, rooted, count 1: the taxon")?;
    Call::new(e.bytes(), 1, 1).case(rt, "E, unrooted, count 1: none")
}

// Case G with a sixteenth of document 01's price and columns: all but the last taxon. The buffers have just what it takes.
pub fn paired(rt: &(impl Print + AllocGlobal)) -> io::Result<()> {
    let sizes = Sizes {
        marks: 127,
        curve: 512,
        work: 132096,
    };
    let g = pairs(1, 4);
    Call::new(g.bytes(), 255, 0)
        .with(sizes)
        .both(rt, "G with price 4 and count 255")
}
