// Filling the table: its top row holds the best set of each column.
ghost use Rattle.std.specs.Prelude.{◌≡◌, ◌+◌, ◌*◌, ◌<◌, length};
ghost use Rattle.cells.specs.Cells.{view, cell};
ghost use Rattle.table.specs.Table.{Fillable, Filled};

use super::push::push;
use super::spread::spread;
use cells::candidate::Candidate;
use cells::memory::{better_rows, fill_row, read};

// Fills the table of an accepted outline, for all columns at once. The first rows are that of no set, that of nothing chosen, and
// the top row. The way is the number that C hands over: an enum would ask more of the caller.
pub fn fill(o: &[u8], way: u32, width: usize, work: &mut [u64])
    requires { Fillable o.now width work.old }
    ensures { Filled o.now way width work.new }
{
    fill_row(work, 0, Candidate::none(), 0, width);
    fill_row(work, width, Candidate::nothing(), 0, width);
    if way == 0 {
        push(o, 1, width, 2 * width, width, work);
        better_rows(work, 2 * width, width, 2 * width, width);
        return;
    }
    fill_row(work, 2 * width, Candidate::nothing(), 0, width);
    spread(o, 1, 0, 3 * width, width, work);
}

// Column b of the top row.
pub fn best_at(work: &[u64], width: usize, b: usize) -> Candidate
    requires { 2 * (2 * width + b) + 1 < length work.now }
    ensures { view result ≡ cell work.now (2 * width + b) }
{
    read(work, 2 * width + b)
}
