// Refusal 13, and the order of refusals: those of the check, 13, 9. A function is the cases of its row, so that two look alike; what
// they share is `case`, `spoiled` and `write_to`.
ghost use Rattle.std.specs.Prelude.{◌≤◌};

use super::show::{case, write_to};
use super::trees::level_by_level;
use samples::outlines::{comb, one_record, star, tree_a, tree_a_with_headings};
use std::io;

// A heading price above 0.
fn headings(rt: &(impl Print + AllocGlobal)) -> io::Result<()> {
    for (label, root, group) in [
        ("heading at the root", 1, 0),
        ("heading at record 2", 0, 1),
        ("greatest headings", 65535, 65535),
    ] {
        case(rt, label, tree_a_with_headings(root, group).bytes())?;
    }
    Ok(())
}

// A lock.
fn locks(rt: &(impl Print + AllocGlobal)) -> io::Result<()> {
    case(rt, "first taxon locked", tree_a().locked(1).bytes())?;
    case(rt, "last taxon locked", tree_a().locked(4).bytes())?;
    case(rt, "all taxa locked", tree_a().locked(7).bytes())?;
    let one = one_record([0, 0, 5, 1, 2147483655]);
    case(rt, "one taxon, locked", one.bytes())
}

// A plate of more than 9 digits, in record 4 of tree A.
fn plates(rt: &(impl Print + AllocGlobal)) -> io::Result<()> {
    for (label, field) in [
        ("plate 999,999,999", 999999999),
        ("plate 1,000,000,000", 1000000000),
        ("plate 2,147,483,647", 2147483647),
        ("plate 999,999,999, locked", 3147483647),
        ("plate 2,147,483,647, locked", 4294967295),
    ] {
        case(rt, label, tree_a().with_plate(4, field).bytes())?;
    }
    Ok(())
}

// The lowest record, whichever of the three it is for. In a comb of 5 records, in which records 2, 4 and 5 are taxa, record 3
// has a heading.
fn places(rt: &(impl Print + AllocGlobal)) -> io::Result<()> {
    for (label, heading, [second, fourth, fifth]) in [
        ("no reason", 0, [12, 14, 15]),
        ("lock, heading", 1, [2147483660, 14, 15]),
        ("plate, heading", 1, [1000000000, 14, 15]),
        ("heading, plate, lock", 1, [12, 1000000000, 2147483663]),
        ("lock, plate", 0, [12, 2147483662, 1000000000]),
        ("plate, lock", 0, [12, 1000000000, 2147483663]),
    ] {
        let mixed = comb(5, 1, 1)
            .with_price(3, heading)
            .with_plate(2, second)
            .with_plate(4, fourth)
            .with_plate(5, fifth);
        case(rt, label, mixed.bytes())?;
    }
    Ok(())
}

// Not the one that comes first in the text, which is record 4 here.
fn record_order(rt: &(impl Print + AllocGlobal)) -> io::Result<()> {
    let two = level_by_level().locked(3);
    case(rt, "records 3 and 4 locked, level by level", two.bytes())
}

// Tree A with its first taxon, record 3, locked and with another record r, a number under the bound of samples/src/outlines.rt.
fn spoiled(
    rt: &(impl Print + AllocGlobal),
    label: &str,
    r: usize,
    fields: [u32; 5],
) -> io::Result<()>
    requires { (1 ≤ r) × (r ≤ 5) }
{
    case(rt, label, tree_a().with(r, fields).locked(1).bytes())
}

// Rows 5, 6 and 8 come before 13.
fn rules_first(rt: &(impl Print + AllocGlobal)) -> io::Result<()> {
    spoiled(rt, "lock, price 65,536", 5, [0, 0, 5, 65536, 13])?;
    spoiled(rt, "lock, link to itself", 4, [4, 0, 2, 1, 12])?;
    spoiled(rt, "lock, plate twice", 5, [0, 0, 5, 2, 12])?;
    spoiled(rt, "plate twice, locked once", 4, [0, 0, 2, 1, 11])?;
    spoiled(rt, "lock, heading 65,536", 2, [5, 3, 3, 65536, 0])?;
    spoiled(rt, "lock, group locked", 2, [5, 3, 3, 0, 2147483648])
}

// So do 2, 3 and 7.
fn sizes_first(rt: &(impl Print + AllocGlobal)) -> io::Result<()> {
    case(rt, "no records", &[])?;
    case(rt, "lock, 79 bytes", tree_a().locked(1).first_bytes(79))?;
    let long = star(128, 1, 1).locked(1);
    case(rt, "lock, 128 records", long.bytes())?;
    let many = star(66, 1, 1).locked(1);
    case(rt, "lock, 65 taxa", many.bytes())
}

// Row 13 comes before 9: a plate of ten digits.
fn before_room(rt: &(impl Print + AllocGlobal)) -> io::Result<()> {
    for (bytes, numbers) in [(0, 0), (22, 6), (100, 5)] {
        let plate = tree_a().with_plate(4, 1000000000);
        write_to(rt, "plate", plate.bytes(), bytes, numbers)?;
    }
    Ok(())
}

// So do its other reasons, and row 8.
fn others_before_room(rt: &(impl Print + AllocGlobal)) -> io::Result<()> {
    let heading = tree_a_with_headings(0, 1);
    write_to(rt, "heading", heading.bytes(), 0, 0)?;
    write_to(rt, "lock", tree_a().locked(2).bytes(), 0, 0)?;
    let twice = tree_a().with(5, [0, 0, 5, 2, 12]);
    write_to(rt, "plate twice", twice.bytes(), 0, 0)
}

pub fn all(rt: &(impl Print + AllocGlobal)) -> io::Result<()> {
    headings(rt)?;
    locks(rt)?;
    plates(rt)?;
    places(rt)?;
    record_order(rt)?;
    rules_first(rt)?;
    sizes_first(rt)?;
    before_room(rt)?;
    others_before_room(rt)
}
