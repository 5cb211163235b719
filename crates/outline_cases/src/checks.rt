// Cases of the check. A function is the cases of its rule, so that two look alike; what they share is `check` and `changed`.
use super::show::{changed, check};
use samples::outlines::{Sample, comb, one_record, star, tree_a};
use std::io;

pub fn sizes(rt: &impl Print) -> io::Result<()> {
    let one = one_record([0, 0, 5, 1, 7]);
    check(rt, "0 bytes", one.first_bytes(0))?;
    check(rt, "15 bytes", one.first_bytes(15))?;
    check(rt, "16 bytes, one taxon", one.first_bytes(16))?;
    check(rt, "17 bytes", one.first_bytes(17))?;
    check(rt, "127 records", comb(127, 0, 0).bytes())?;
    check(rt, "128 records", comb(128, 0, 0).bytes())?;
    check(rt, "64 taxa", star(65, 0, 0).bytes())?;
    check(rt, "65 taxa", star(66, 0, 0).bytes())
}

// Each field at the ends of its range. 16,777,216 is 0 in all bytes but its last.
pub fn fields(rt: &impl Print) -> io::Result<()> {
    check(rt, "tree A", tree_a().bytes())?;
    changed(rt, "length 1,000,000", 3, [4, 0, 1000000, 3, 11])?;
    changed(rt, "length 1,000,001", 3, [4, 0, 1000001, 3, 11])?;
    changed(rt, "length 16,777,216", 3, [4, 0, 16777216, 3, 11])?;
    changed(rt, "root of length 1,000,001", 1, [0, 2, 1000001, 0, 0])?;
    changed(rt, "price 65,535", 3, [4, 0, 4, 65535, 11])?;
    changed(rt, "price 65,536", 3, [4, 0, 4, 65536, 11])?;
    changed(rt, "taxon with plate 0", 3, [4, 0, 4, 3, 0])?;
    changed(rt, "plate 1", 3, [4, 0, 4, 3, 1])?;
    changed(rt, "plate 16,777,216", 3, [4, 0, 4, 3, 16777216])?;
    changed(rt, "plate 2,147,483,647", 3, [4, 0, 4, 3, 2147483647])?;
    changed(rt, "group with price 65,535", 2, [5, 3, 3, 65535, 0])?;
    changed(rt, "group with price 65,536", 2, [5, 3, 3, 65536, 0])?;
    changed(rt, "root with price 65,535", 1, [0, 2, 0, 65535, 0])?;
    changed(rt, "root with price 65,536", 1, [0, 2, 0, 65536, 0])?;
    changed(rt, "group with a plate", 2, [5, 3, 3, 0, 14])?;
    let two = tree_a()
        .with(5, [0, 0, 5, 65536, 13])
        .with(3, [4, 0, 4, 3, 0]);
    check(rt, "bad fields in records 3 and 5", two.bytes())
}

// Bit 31 of a taxon's plate field is its lock, and the other bits are its plate.
pub fn locks(rt: &impl Print) -> io::Result<()> {
    changed(rt, "plate 11 locked", 3, [4, 0, 4, 3, 2147483659])?;
    changed(rt, "plate 1 locked", 3, [4, 0, 4, 3, 2147483649])?;
    changed(rt, "plate 0 locked", 3, [4, 0, 4, 3, 2147483648])?;
    changed(
        rt,
        "plate 2,147,483,647 locked",
        3,
        [4, 0, 4, 3, 4294967295],
    )?;
    changed(rt, "group locked", 2, [5, 3, 3, 0, 2147483648])?;
    changed(rt, "root locked", 1, [0, 2, 0, 0, 2147483648])?;
    let three = tree_a().locked(7);
    check(rt, "plates 11, 12 and 13 locked", three.bytes())?;
    let all = star(65, 0, 0).locked(u64::MAX);
    check(rt, "64 taxa, all locked", all.bytes())
}

// A link names a later record. But for that each record here is named as it should be.
pub fn links_to_later(rt: &impl Print) -> io::Result<()> {
    let four = tree_a().with(2, [0, 3, 3, 0, 0]);
    let next = four.with(5, [5, 0, 5, 2, 13]);
    check(rt, "next of record 5 is 5", next.bytes())?;
    let first = four.with(5, [0, 5, 5, 0, 0]);
    check(rt, "first of record 5 is 5", first.bytes())?;
    let root = one_record([0, 1, 0, 0, 0]);
    check(rt, "first of record 1 is 1", root.bytes())?;
    changed(rt, "next of record 5 is 1", 5, [1, 0, 5, 2, 13])?;
    let back = Sample::new(&[[0, 3, 0, 0, 0], [0, 0, 1, 1, 7], [2, 0, 1, 1, 8]]);
    check(rt, "next of record 3 is 2", back.bytes())?;
    let member = back.with(3, [0, 2, 1, 0, 0]);
    check(rt, "first of record 3 is 2", member.bytes())
}

// A link is at most N, here 5. 256 is 0 in its low byte.
pub fn links_in_range(rt: &impl Print) -> io::Result<()> {
    changed(rt, "next of record 5 is 6", 5, [6, 0, 5, 2, 13])?;
    changed(rt, "first of record 5 is 6", 5, [0, 6, 5, 0, 0])?;
    changed(rt, "next of record 5 is 256", 5, [256, 0, 5, 2, 13])?;
    changed(rt, "first of record 5 is 256", 5, [0, 256, 5, 0, 0])?;
    changed(rt, "next of record 5 is 65,535", 5, [65535, 0, 5, 2, 13])?;
    changed(rt, "first of record 5 is 65,535", 5, [0, 65535, 5, 0, 0])
}

// The root is in no group, so it has no next. Each other record is named by exactly one link.
pub fn naming(rt: &impl Print) -> io::Result<()> {
    let two = Sample::new(&[[2, 0, 1, 1, 7], [0, 0, 1, 1, 8]]);
    check(rt, "next of record 1 is 2", two.bytes())?;
    changed(rt, "record 4 not named", 3, [0, 0, 4, 3, 11])?;
    changed(rt, "record 5 named by two nexts", 4, [5, 0, 2, 1, 12])?;
    let mixed = Sample::new(&[
        [0, 2, 0, 0, 0],
        [3, 4, 0, 0, 0],
        [4, 0, 1, 1, 7],
        [0, 0, 1, 1, 8],
    ]);
    check(rt, "record 4 named by a next and a first", mixed.bytes())?;
    let firsts = mixed.with(3, [0, 4, 1, 0, 0]);
    check(rt, "record 4 named by two firsts", firsts.bytes())?;
    let both = firsts.with(2, [3, 3, 0, 0, 0]);
    check(
        rt,
        "record 3 named by both links of one record",
        both.bytes(),
    )
}

// A group may have a single member.
pub fn single_members(rt: &impl Print) -> io::Result<()> {
    let chain = Sample::new(&[[0, 2, 0, 0, 0], [0, 3, 7, 0, 0], [0, 0, 0, 2, 1]]);
    check(rt, "a chain of one member in each group", chain.bytes())
}

// The place is the lowest record at fault, by its own links or by being named wrongly.
pub fn places(rt: &impl Print) -> io::Result<()> {
    let one = tree_a().with(3, [0, 0, 4, 3, 11]).with(5, [6, 0, 5, 2, 13]);
    check(rt, "record 4 not named, next of record 5 is 6", one.bytes())?;
    let other = tree_a().with(2, [0, 3, 3, 0, 0]).with(4, [6, 0, 2, 1, 12]);
    check(
        rt,
        "next of record 4 is 6, record 5 not named",
        other.bytes(),
    )?;
    changed(rt, "record 2 named twice, by 1 and 5", 5, [2, 0, 5, 2, 13])
}

// Of several refusals that hold the one with the lowest number is given, whatever the records' numbers.
pub fn order(rt: &impl Print) -> io::Result<()> {
    let long = comb(128, 0, 0);
    check(
        rt,
        "part of a record after 128 records",
        long.first_bytes(2049),
    )?;
    check(rt, "128 records of zeros", Sample::blank(128).bytes())?;
    let link = tree_a().with(2, [5, 2, 3, 0, 0]).with(5, [0, 0, 5, 2, 0]);
    check(
        rt,
        "bad link in record 2, bad field in record 5",
        link.bytes(),
    )?;
    let many = star(66, 0, 0);
    let bad = many.with(66, [67, 0, 0, 0, 66]);
    check(rt, "65 taxa, bad link in record 66", bad.bytes())?;
    let twins = many.with(66, [0, 0, 0, 0, 2]);
    check(rt, "65 taxa, two plates alike", twins.bytes())?;
    let alike = tree_a().with(3, [4, 0, 4, 3, 12]).with(5, [6, 0, 5, 2, 13]);
    check(rt, "two plates alike, bad link in record 5", alike.bytes())
}

pub fn plates_alike(rt: &impl Print) -> io::Result<()> {
    changed(rt, "plate 11 at 3 and 5", 5, [0, 0, 5, 2, 11])?;
    let three = tree_a().with(4, [0, 0, 2, 1, 11]).with(5, [0, 0, 5, 2, 11]);
    check(rt, "plate 11 at 3, 4 and 5", three.bytes())?;
    let pairs = star(5, 0, 0)
        .with(4, [5, 0, 0, 0, 3])
        .with(5, [0, 0, 0, 0, 2]);
    check(rt, "plate 2 at 2 and 5, plate 3 at 3 and 4", pairs.bytes())?;
    let many = star(65, 0, 0).with(65, [0, 0, 0, 0, 2]);
    check(rt, "64 taxa, two plates alike", many.bytes())?;
    changed(rt, "plates 11 and 16,777,227", 4, [0, 0, 2, 1, 16777227])?;
    changed(
        rt,
        "plate 11 at 3, and locked at 5",
        5,
        [0, 0, 5, 2, 2147483659],
    )?;
    let both = tree_a().with(4, [0, 0, 2, 1, 11]).locked(3);
    check(rt, "plate 11 locked at 3 and 4", both.bytes())?;
    changed(rt, "plate like a length and a price", 3, [4, 0, 4, 3, 2])
}

// Two groups whose members take turns: a record, then its members, then the rest of its chain go 1, 2, 4, 6, 3, 5, 7. The
// later of two plates alike is the one with the higher record number, and not the one that comes later in that order.
pub fn interleaved(rt: &impl Print) -> io::Result<()> {
    let turns = Sample::new(&[
        [0, 2, 0, 0, 0],
        [3, 4, 1, 0, 0],
        [0, 5, 1, 0, 0],
        [6, 0, 1, 1, 21],
        [7, 0, 1, 1, 22],
        [0, 0, 1, 1, 23],
        [0, 0, 1, 1, 24],
    ]);
    check(rt, "records interleaved", turns.bytes())?;
    let alike = turns.with(6, [0, 0, 1, 1, 22]);
    check(rt, "the same, plate 22 at 5 and 6", alike.bytes())
}
