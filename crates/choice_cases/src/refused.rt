// Refusals, and their order.
use super::show::{Call, NOTHING, Sizes};
use samples::outlines::{comb, star, tree_a};
use std::io;

// Refusal 1.
pub fn ways(rt: &(impl Print + AllocGlobal)) -> io::Result<()> {
    Call::new(tree_a().bytes(), 5, 2).case(rt, "way 2")?;
    Call::new(tree_a().bytes(), 5, 256).case(rt, "way 256")?;
    Call::new(tree_a().bytes(), 5, 4294967295).case(rt, "way 4,294,967,295")
}

// Refusals 5 to 8, by way of choosing.
pub fn rules(rt: &(impl Print + AllocGlobal)) -> io::Result<()> {
    let field = tree_a().with(3, [4, 0, 4, 65536, 11]);
    Call::new(field.bytes(), 5, 0).case(rt, "price 65,536 in record 3")?;
    let link = tree_a().with(5, [6, 0, 5, 2, 13]);
    Call::new(link.bytes(), 5, 0).case(rt, "next of record 5 is 6")?;
    let alike = tree_a().with(5, [0, 0, 5, 2, 12]);
    Call::new(alike.bytes(), 5, 0).case(rt, "plate 12 at 4 and 5")
}

// Refusal 9. Tree A at count 5 takes 5 marks, 12 numbers of the curve and 168 of work.
pub fn buffers_too_short(rt: &(impl Print + AllocGlobal)) -> io::Result<()> {
    for (label, way, marks, curve, work) in [
        ("just enough, rooted", 0, 5, 12, 168),
        ("just enough, unrooted", 1, 5, 12, 168),
        ("a mark too few, rooted", 0, 4, 12, 168),
        ("a mark too few, unrooted", 1, 4, 12, 168),
        ("a number of the curve too few, rooted", 0, 5, 11, 168),
        ("a number of the curve too few, unrooted", 1, 5, 11, 168),
        ("a number of work too few, rooted", 0, 5, 12, 167),
        ("a number of work too few, unrooted", 1, 5, 12, 167),
        ("no buffers", 0, 0, 0, 0),
    ] {
        let sizes = Sizes { marks, curve, work };
        Call::new(tree_a().bytes(), 5, way)
            .with(sizes)
            .case(rt, label)?;
    }
    Ok(())
}

// Of several that hold the first is given. Rows 1 to 4, with all that follows them: bad fields, bad links, two plates alike,
// and no buffers.
pub fn order_by_call(rt: &(impl Print + AllocGlobal)) -> io::Result<()> {
    let bad = star(66, 1000001, 1).with(65, [67, 0, 0, 0, 64]);
    Call::new(bad.first_bytes(15), 4097, 2).case(rt, "way 2, 15 bytes, count 4,097")?;
    let long = comb(128, 1000001, 1);
    Call::new(long.first_bytes(2049), 4097, 0).case(rt, "2,049 bytes, count 4,097")?;
    for (label, o, count, way) in [
        ("way 2, 128 records, count 4,097, bad fields", long, 4097, 2),
        ("128 records, count 4,097, bad fields", long, 4097, 1),
        (
            "count 4,097, bad fields, a bad link, 65 taxa, plates alike",
            bad,
            4097,
            0,
        ),
        ("bad fields, a bad link, 65 taxa, plates alike", bad, 5, 0),
    ] {
        Call::new(o.bytes(), count, way)
            .with(NOTHING)
            .case(rt, label)?;
    }
    Ok(())
}

// Rows 5 to 9.
pub fn order_by_outline(rt: &(impl Print + AllocGlobal)) -> io::Result<()> {
    let alike = tree_a().with(3, [4, 0, 4, 3, 12]);
    let field = alike.with(5, [6, 0, 5, 65536, 13]);
    let link = alike.with(5, [6, 0, 5, 2, 13]);
    let many = star(66, 3, 1).with(66, [0, 0, 3, 1, 65]);
    for (label, o, way) in [
        (
            "a bad field in record 5, a bad link there, plates alike",
            field,
            0,
        ),
        ("a bad link in record 5, plates alike", link, 0),
        ("65 taxa, plates alike", many, 0),
        ("plates alike", alike, 0),
        ("only the buffers are too short", tree_a(), 1),
    ] {
        Call::new(o.bytes(), 5, way).with(NOTHING).case(rt, label)?;
    }
    Ok(())
}
