// Outlines that are written.
use super::show::{case, write_to};
use samples::headings::{deep_pair, free_pair, interleaved, two_families};
use samples::outlines::{Sample, one_record, pairs, star, tree_a};
use std::io;

// Tree A of document 01, with record 3 for the taxon that the text has last.
pub fn level_by_level() -> Sample {
    Sample::new(&[
        [0, 2, 0, 0, 0],
        [3, 4, 3, 0, 0],
        [0, 0, 5, 2, 13],
        [5, 0, 4, 3, 11],
        [0, 0, 2, 1, 12],
    ])
}

// Members in chain order and pairs in text order, however the records are numbered.
fn orders(rt: &(impl Print + AllocGlobal)) -> io::Result<()> {
    case(rt, "tree A", tree_a().bytes())?;
    case(rt, "tree A, level by level", level_by_level().bytes())?;
    case(rt, "tree A, interleaved", interleaved(0, 0).bytes())
}

// Single taxa, by length, price and plate: no leading zeros, and no others left out.
fn single_taxa(rt: &(impl Print + AllocGlobal)) -> io::Result<()> {
    for [length, price, plate] in [
        [5, 1, 7],
        [0, 0, 1],
        [1000000, 65535, 999999999],
        [9, 9, 9],
        [10, 10, 10],
        [99, 99, 99],
        [100, 100, 100],
        [9999, 9999, 9999],
        [10000, 10000, 10000],
        [999999, 65535, 99999999],
        [100100, 60500, 100000000],
    ] {
        let one = one_record([0, 0, length, price, plate]);
        case(rt, "one taxon", one.bytes())?;
    }
    Ok(())
}

// Groups one within the other, each the only member of the one before, and plate 7 in the last.
fn two_deep() -> Sample {
    Sample::new(&[[0, 2, 0, 0, 0], [0, 3, 1000000, 0, 0], [0, 0, 0, 1, 7]])
}

fn three_deep() -> Sample {
    Sample::new(&[
        [0, 2, 1, 0, 0],
        [0, 3, 2, 0, 0],
        [0, 4, 3, 0, 0],
        [0, 0, 5, 1, 7],
    ])
}

// Groups with a single member.
fn single_members(rt: &(impl Print + AllocGlobal)) -> io::Result<()> {
    case(rt, "two groups around a taxon", two_deep().bytes())?;
    case(rt, "three groups around a taxon", three_deep().bytes())?;
    case(rt, "a group alone in the root", deep_pair(0, 0).bytes())?;
    case(rt, "groups of one taxon", two_families(0).bytes())
}

fn many_members(rt: &(impl Print + AllocGlobal)) -> io::Result<()> {
    let zeros = free_pair(0, 0, 0);
    case(rt, "zero lengths and prices", zeros.bytes())?;
    case(rt, "star", star(12, 10, 100).bytes())?;
    write_to(rt, "six levels of pairs", pairs(1, 64).bytes(), 600, 128)
}

pub fn all(rt: &(impl Print + AllocGlobal)) -> io::Result<()> {
    orders(rt)?;
    single_taxa(rt)?;
    single_members(rt)?;
    many_members(rt)
}
