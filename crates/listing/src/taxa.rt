// The lines of the chosen taxa and the total, from their sheet.
ghost use Rattle.std.specs.Prelude.{◌*◌, ◌≤◌, length, take};
ghost use Rattle.outline.specs.Outline.{size};
ghost use Rattle.text.specs.Written.{LongEnough, Put};
ghost use Rattle.listing.specs.FromBuffers.{taxa_text, Listed};
ghost use Rattle.listing.specs.Printed.{sheet_text};

use sheet::sheet;
use text::Pen;

// A choice has at most 64 taxa, and a row has 3 numbers.
const SHEET: usize = 192;

// A line for each row: plate, quarters added, diversity added. One function for this and `put_columns` would be no plainer: a column's
// line begins with its number, which the curve doesn't have, and the function would have to be told so.
fn put_taxa(pen: &mut Pen<u8>, sheet: &[u32], rows: usize)
    requires { (3 * rows ≤ length sheet.now) × LongEnough (taxa_text sheet.now rows) pen.old }
    ensures { Put (taxa_text sheet.now rows) pen.old pen.new }
{
    for [plate, quarters, diversity] in &sheet.as_chunks::<3>().0[..rows] {
        pen.put_line(&[*plate as u64, *quarters as u64, *diversity as u64]);
    }
}

// The sheet of a marked set. What a choice marked is never refused.
pub fn put_sheet(pen: &mut Pen<u8>, o: &[u8], way: u32, marks: &[u8])
    requires listed { Listed o.now way marks.now }
    requires long_enough { LongEnough (sheet_text o.now way (take (size o.now) marks.now)) pen.old }
    ensures { Put (sheet_text o.now way (take (size o.now) marks.now)) pen.old pen.new }
{
    let mut lent = [0u32; SHEET];
    let sums = sheet(o, way, marks, &mut lent).unwrap();
    put_taxa(pen, &lent, sums.rows as usize);
    pen.put_labelled(b"total", &[sums.quarters as u64, sums.diversity as u64]);
}
