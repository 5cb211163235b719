// The lines of the columns, from the curve.
ghost use Rattle.std.specs.Prelude.{◌*◌, ◌≤◌, length};
ghost use Rattle.text.specs.Written.{LongEnough, Put};
ghost use Rattle.listing.specs.FromBuffers.{columns_text};

use text::Pen;

// A line for each column: its number, diversity, cost.
pub fn put_columns(pen: &mut Pen<u8>, curve: &[u32], width: usize)
    requires { (2 * width ≤ length curve.now) × LongEnough (columns_text curve.now width) pen.old }
    ensures { Put (columns_text curve.now width) pen.old pen.new }
{
    let columns = &curve.as_chunks::<2>().0[..width];
    for (b, [diversity, cost]) in columns.iter().enumerate() {
        pen.put_line(&[b as u64, *diversity as u64, *cost as u64]);
    }
}
