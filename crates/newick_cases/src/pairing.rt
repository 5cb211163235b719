// Pairs, matched with taxa by number alone.
use super::show::case;
use std::io;

// Reading a text with each of these lists of pairs.
fn each(rt: &impl Print, text: &str, lists: &[&[u32]]) -> io::Result<()> {
    for pairs in lists {
        case(rt, text, *pairs)?;
    }
    Ok(())
}

fn paired(rt: &impl Print) -> io::Result<()> {
    each(
        rt,
        "(7,8);",
        &[
            &[7, 1, 8, 2],
            &[8, 2, 7, 1],
            &[7, 8, 8, 7],
            &[7, 3, 8, 3],
            &[7, 0, 8, 0],
        ],
    )
}

// Refusal 11: a taxon without a pair.
fn without_a_pair(rt: &impl Print) -> io::Result<()> {
    each(
        rt,
        "(7,8);",
        &[&[], &[8, 2], &[7, 1], &[7, 8], &[1, 7, 2, 8]],
    )
}

// A taxon with two pairs.
fn with_two_pairs(rt: &impl Print) -> io::Result<()> {
    each(
        rt,
        "(7,8);",
        &[&[7, 1, 8, 2, 7, 1], &[7, 1, 8, 2, 8, 3], &[7, 1, 7, 1]],
    )
}

// A pair without a taxon: 0 is the plate of the group alone, no text has a plate of ten digits, and 8 is a length.
fn without_a_taxon(rt: &impl Print) -> io::Result<()> {
    each(
        rt,
        "(7,8);",
        &[
            &[7, 1, 8, 2, 9, 3],
            &[9, 3, 7, 1, 8, 2],
            &[7, 1, 8, 2, 0, 0],
            &[7, 1, 8, 2, 4294967295, 3],
        ],
    )?;
    case(rt, "7:8;", &[7, 1, 8, 2])
}

// An odd count of numbers.
fn odd(rt: &impl Print) -> io::Result<()> {
    each(
        rt,
        "(7,8);",
        &[&[7], &[7, 1, 8], &[7, 1, 8, 2, 9], &[7, 1, 8, 2, 7]],
    )
}

// Plate 0 is a number of the text, but no taxon's plate.
fn zero(rt: &impl Print) -> io::Result<()> {
    each(rt, "0;", &[&[0, 1], &[]])?;
    each(rt, "(7,0);", &[&[7, 1, 0, 2], &[7, 1]])?;
    case(rt, "(000000000);", &[0, 1])
}

// Two taxa of one plate share their pair, and give 8.
fn twins(rt: &impl Print) -> io::Result<()> {
    each(rt, "(7,7);", &[&[7, 1], &[7, 1, 7, 1], &[]])?;
    case(rt, "(7,07);", &[7, 1])?;
    case(rt, "((7,8),(9,8),7);", &[7, 1, 8, 2, 9, 3])?;
    case(rt, "((7,8),7,7,9);", &[7, 1, 8, 2, 9, 3])
}

pub fn all(rt: &impl Print) -> io::Result<()> {
    paired(rt)?;
    without_a_pair(rt)?;
    with_two_pairs(rt)?;
    without_a_taxon(rt)?;
    odd(rt)?;
    zero(rt)?;
    twins(rt)
}
