// The refusals in their order: 1, those of the check, 14, 9; and sheets with just enough numbers.
use super::show::Call;
use samples::outlines::{star, tree_a};
use std::io;

// Tree A with these marks, and a sheet of so many numbers. What is handed on here and below is what cases differ in; the call's struct has the rest.
fn tree(rt: &(impl Print + AllocGlobal), way: u32, numbers: usize, marks: &[u8]) -> io::Result<()> {
    Call::new(tree_a().bytes(), way, numbers, marks).case(rt, "tree A")
}

// Row 1; row 14, too few marks, then the lowest record with a bad one; row 9. Of several rows the first.
pub fn marks(rt: &(impl Print + AllocGlobal)) -> io::Result<()> {
    tree(rt, 2, 30, &[0, 0, 1, 0, 1])?;
    tree(rt, 2, 0, &[0, 0, 2, 0])?;
    tree(rt, 0, 30, &[0, 0, 1, 0])?;
    tree(rt, 1, 30, &[0, 0, 2, 0])?;
    tree(rt, 0, 0, &[0, 0, 1, 0])?;
    tree(rt, 0, 30, &[0, 0, 1, 2, 0])?;
    tree(rt, 1, 30, &[0, 0, 1, 0, 255])?;
    tree(rt, 0, 30, &[0, 1, 1, 0, 0])?;
    tree(rt, 1, 30, &[1, 0, 1, 0, 0])?;
    tree(rt, 0, 30, &[0, 1, 2, 0, 255, 0, 0, 0])?;
    tree(rt, 0, 0, &[0, 0, 1, 0, 2])?;
    tree(rt, 0, 5, &[0, 0, 1, 0, 1])?;
    tree(rt, 0, 6, &[0, 0, 1, 0, 1])?;
    tree(rt, 0, 7, &[0, 0, 1, 0, 1])?;
    tree(rt, 0, 30, &[0, 0, 0, 0, 0])?;
    tree(rt, 1, 0, &[0, 0, 0, 0, 0])
}

// An outline with bad marks and no sheet.
fn outline(rt: &(impl Print + AllocGlobal), label: &str, o: &[u8], way: u32) -> io::Result<()> {
    Call::new(o, way, 0, &[1, 1, 2, 255, 0]).case(rt, label)
}

// Row 1 before all others, and the check's rows before 14.
pub fn outlines(rt: &(impl Print + AllocGlobal)) -> io::Result<()> {
    outline(rt, "no bytes", &[], 2)?;
    outline(rt, "no bytes", &[], 0)?;
    outline(rt, "79 bytes", tree_a().first_bytes(79), 1)?;
    outline(rt, "128 records", star(128, 1, 1).bytes(), 0)?;
    let field = tree_a().with(3, [4, 0, 4, 65536, 11]);
    outline(rt, "price 65,536", field.bytes(), 1)?;
    let link = tree_a().with(5, [6, 0, 5, 2, 13]);
    outline(rt, "next 6", link.bytes(), 0)?;
    outline(rt, "65 taxa", star(66, 1, 1).bytes(), 1)?;
    let alike = tree_a().with(5, [0, 0, 5, 2, 12]);
    outline(rt, "plate twice", alike.bytes(), 0)
}
