// Pushing a row through the chain of a record. The two rows of record r begin at `2 * ((r + 1) * width)`, here and in spread.rt, written
// out: what a function gives stands in each fact as its result, and some twenty answers would have to put the product in its place.
ghost use Rattle.outline.specs.Outline.{IsRecord, branch, price};
ghost use Rattle.cells.specs.Memory.{Betters, Charges, Charging};
ghost use Rattle.table.specs.Table.{Pushable, Pushed, Followed};

use super::taxa::{join_terminal, terminal_row};
use cells::memory::{better_rows, charge_row};
use outline::fields::{branch_of, first_of, next_of, price_of};

// Charges the row at `to` with the heading of record r, in place; each column then is the better of that and the rest's. Inlined: by a
// call all of choosing took 1.13 times as long in a chain of groups, at page count 96.
#[inline(always)]
pub fn charge_heading(o: &[u8], r: usize, to: usize, rest: usize, width: usize, work: &mut [u64])
    requires is_record { IsRecord o.now r }
    requires charges { Charges work.old to (branch o.now r) (price o.now r) rest width }
    ensures { Charging to (branch o.now r) (price o.now r) rest width work.old work.new }
{
    let branch = branch_of(o, r) as u64;
    let price = price_of(o, r) as usize;
    charge_row(work, to, branch, price, rest, width);
}

// What may follow a clade, the better of the rows at `after` and `rest`: gives the cell where it stands.
fn follow_row(work: &mut [u64], to: usize, after: usize, rest: usize, width: usize) -> usize
    requires { Betters work.old to after rest width }
    ensures { Followed to after rest width work.old work.new result }
{
    if rest == 0 {
        return after;
    }
    better_rows(work, to, after, rest, width);
    to
}

// Pushes the row at `after` through the chain of record r, to the row at `to`. Gives the cell where the pushed row stands:
// `to`, or 0 for no record, which is no absence: at cell 0 stands the row that has no set in any column.
pub fn push(o: &[u8], r: usize, after: usize, to: usize, width: usize, work: &mut [u64]) -> usize
    requires { Pushable o.now r after to width work.old }
    ensures { Pushed o.now r after to width work.old work.new result }
{
    if r == 0 {
        return 0;
    }
    let own = 2 * ((r + 1) * width);
    let n = next_of(o, r);
    let rest = push(o, n, after, own + width, width, work);
    let f = first_of(o, r);
    if f == 0 {
        terminal_row(o, r, to, width, work);
        join_terminal(o, r, after, rest, to, width, work);
        return to;
    }
    let follow = follow_row(work, own, after, rest, width);
    push(o, f, follow, to, width, work);
    charge_heading(o, r, to, rest, width, work);
    to
}
