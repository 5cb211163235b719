// The outline's buffer, and the order of refusals: 10, 3, 11, 9, then 5 to 8.
use super::show::{case, read_long, read_to};
use super::texts::{nested, star, star_pairs};
use std::io;

// Tree A takes 80 bytes.
fn buffers(rt: &(impl Print + AllocGlobal)) -> io::Result<()> {
    for bytes in [80, 81, 79, 64, 0] {
        let pairs = [11, 3, 12, 1, 13, 2];
        read_to(rt, b"((11:4,12:2):3,13:5);", &pairs, bytes)?;
    }
    read_to(rt, b"7;", &[7, 1], 16)?;
    read_to(rt, b"7;", &[7, 1], 15)
}

// Row 10, before each of the others.
fn text_first(rt: &(impl Print + AllocGlobal)) -> io::Result<()> {
    read_to(rt, b"7", &[], 160)?;
    read_to(rt, b"7", &[7, 1], 0)?;
    read_to(rt, b"0:1000001", &[0, 1], 160)?;
    read_to(rt, b"(7,7)", &[7, 1], 160)
}

// Row 3 comes between 10 and the others.
fn records_next(rt: &(impl Print + AllocGlobal)) -> io::Result<()> {
    let bad = star(rt.alloc(), 226, "227)")?;
    read_long(rt, "10 before 3, 7, 11 and 9", bad.as_str(), &[101], 0)?;
    let more = star(rt.alloc(), 226, "227);")?;
    let fewer = star_pairs(rt.alloc(), 226)?;
    read_long(rt, "3 before 7 and 11", more.as_str(), &fewer, 2064)?;
    let pairs = star_pairs(rt.alloc(), 227)?;
    read_long(rt, "3 before 7 and 9", more.as_str(), &pairs, 2047)?;
    let deep = nested(rt.alloc(), 128, ";")?;
    read_long(rt, "3 before 11 and 9", deep.as_str(), &[], 0)
}

// Row 11.
fn pairs_next(rt: &(impl Print + AllocGlobal)) -> io::Result<()> {
    read_to(rt, b"(7,8);", &[7, 1], 0)?;
    read_to(rt, b"7;", &[7, 1, 8], 15)?;
    case(rt, "7:1000001;", &[8, 65536])?;
    case(rt, "(7,7);", &[7, 1, 8, 2])?;
    let more = star(rt.alloc(), 164, "165);")?;
    let fewer = star_pairs(rt.alloc(), 164)?;
    read_long(rt, "11 before 7", more.as_str(), &fewer, 2064)
}

// Row 9.
fn buffer_next(rt: &(impl Print + AllocGlobal)) -> io::Result<()> {
    read_to(rt, b"7:1000001;", &[7, 1], 15)?;
    read_to(rt, b"(7,7);", &[7, 1], 47)?;
    let more = star(rt.alloc(), 164, "165);")?;
    let pairs = star_pairs(rt.alloc(), 165)?;
    read_long(rt, "9 before 7", more.as_str(), &pairs, 1055)?;
    read_long(rt, "7 with a byte more", more.as_str(), &pairs, 1056)
}

// Rows 5 to 8. The last of 66 taxa is the twin of another.
fn rules(rt: &(impl Print + AllocGlobal)) -> io::Result<()> {
    case(rt, "(7,7,8:1000001);", &[7, 1, 8, 2])?;
    let text = star(rt.alloc(), 165, "156);")?;
    let mut pairs = star_pairs(rt.alloc(), 165)?;
    read_long(rt, "7 before 8", text.as_str(), &pairs, 2064)?;
    pairs.pop();
    pairs.push(65536)?;
    read_long(rt, "5 before 7 and 8", text.as_str(), &pairs, 2064)
}

pub fn all(rt: &(impl Print + AllocGlobal)) -> io::Result<()> {
    buffers(rt)?;
    text_first(rt)?;
    records_next(rt)?;
    pairs_next(rt)?;
    buffer_next(rt)?;
    rules(rt)
}
