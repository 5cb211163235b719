// The curve: for each column the best diversity, then its cost; and the spare, read from it.
ghost use Rattle.std.specs.Prelude.{◌≡◌, ◌*◌, ◌<◌, length};
ghost use Rattle.lists.specs.Lists.{from, over};
ghost use Rattle.diversity.specs.Search.{columns_alike};
ghost use Rattle.choice.specs.Answer.{columns, diversity_at};
ghost use Rattle.cells.specs.Cells.{view};
ghost use Rattle.choice.specs.Inner.{column_shown, top_diversity, top_cost, Drawable, level};

use cells::candidate::Candidate;
use table::best_at;
use text::Pen;

// The cost of a column where no set fits. The curve is lent through C, where a column is two numbers and not an `Option`.
pub const BLANK_COST: u32 = u32::MAX;

// What the best candidate of a column shows, in an outline with so many locked taxa, its diversity and its cost: if it lacks one of
// them, no set fits.
fn column_of(best: Candidate, locks: u64) -> [u32; 2]
    ensures { result ≡ column_shown locks (view best) }
{
    if best.locked() != locks {
        return [0, BLANK_COST];
    }
    [best.diversity() as u32, best.cost() as u32]
}

// Writes the curve from the table's top row, for an outline with so many locked taxa.
pub fn write_curve(work: &[u64], width: usize, locks: u64, curve: &mut [u32])
    requires { Drawable work.now width curve.old }
    ensures { curve.new
        ≡ over (columns (top_diversity work.now width locks) (top_cost work.now width locks) (from 0 width))
        curve.old }
{
    let mut pen = Pen {
        buffer: curve,
        at: 0,
    };
    for b in 0..width {
        pen.put(&column_of(best_at(work, width, b), locks));
    }
}

// How many quarters can go with the diversity unchanged: from the right end of the curve leftwards until the diversity drops or no
// set fits. Document 01 asks for this form, a loop that yields the lowest such column by `break`. Both ends are one condition, by `|`, as in
// outline/src/rules.rt.
pub fn spare_of(curve: &[u32], count: usize) -> usize
    requires { 2 * count < length curve.now }
    ensures { result ≡ columns_alike (level curve.now (diversity_at curve.now count)) count }
{
    let diversity = curve[2 * count];
    let mut b = count;
    let lowest = loop {
        if b == 0 {
            break 0;
        }
        let left = b - 1;
        if (curve[2 * left + 1] == BLANK_COST) | (curve[2 * left] != diversity) {
            break b;
        }
        b = left;
    };
    count - lowest
}
