// A choice's marks, handed on as they are. Label, outline and count are what a case is, and go into the struct of a call below.
use super::show::Call;
use choice::choose;
use samples::outlines::{comb, tree_a, tree_a_with_headings};
use std::io;

// Choosing both ways from an outline, and listing what is chosen. There are marks for 127 records.
fn chosen(rt: &(impl Print + AllocGlobal), label: &str, o: &[u8], count: u32) -> io::Result<()> {
    for way in 0..2 {
        // arrays: their sizes are the same in every call
        let mut marks = [170; 127];
        let mut curve = [0; 40];
        let mut work = [0; 1600];
        print!(rt; "{label}, way {way}")?;
        if let Ok(f) = choose(o, count, way, &mut marks, &mut curve, &mut work) {
            print!(rt; ", chosen {} {} {}", f.taxa, f.cost, f.diversity)?;
            Call::new(o, way, 200, &marks).answer(rt)?;
        }
    }
    Ok(())
}

pub fn all(rt: &(impl Print + AllocGlobal)) -> io::Result<()> {
    chosen(rt, "tree A at 5", tree_a().bytes(), 5)?;
    let headings = tree_a_with_headings(1, 2);
    chosen(rt, "headings 1 and 2 at 6", headings.bytes(), 6)?;
    let locks = tree_a_with_headings(2, 9).locked(2);
    chosen(rt, "headings 2 and 9, 12 locked, at 14", locks.bytes(), 14)?;
    let long = comb(127, 1000000, 0);
    chosen(rt, "127 records at 0", long.bytes(), 0)
}
