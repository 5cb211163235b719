// Trees, and how their records are numbered.
use super::show::{case, read_bytes};
use std::io;

// Document 01's tree A, byte by byte, with its pairs in either order.
fn tree_a(rt: &impl Print) -> io::Result<()> {
    let text = "((11:4,12:2):3,13:5);";
    read_bytes(rt, text, &[11, 3, 12, 1, 13, 2])?;
    read_bytes(rt, text, &[13, 2, 12, 1, 11, 3])
}

// Records are numbered as their parts begin.
fn numbering(rt: &impl Print) -> io::Result<()> {
    let pairs = [1, 10, 2, 20, 3, 30, 4, 40, 5, 50];
    case(rt, "((1,(2:6,3)),(4):7,5);", &pairs)?;
    case(rt, "(5,(4),((3,2),1));", &pairs)
}

// Every byte of a field.
fn fields(rt: &impl Print) -> io::Result<()> {
    let pairs = [999999999, 65535, 65536, 256];
    case(rt, "(999999999:1000000,65536:65536):256;", &pairs)
}

pub fn all(rt: &impl Print) -> io::Result<()> {
    tree_a(rt)?;
    numbering(rt)?;
    fields(rt)
}
