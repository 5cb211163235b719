// Rows of candidates in lent memory, written column by column.
// The memory and the width go along as two parameters. A struct of both, tried with two of these functions, is no plainer: it spares each
// call one argument, and each contract, here and in table, has to add that the width and the borrow stay, as each text of a pen does. That a
// cell is within the memory is asked of each: the memory does not know which will be.
ghost use Rattle.std.specs.Prelude.{◌≡◌, ◌+◌, ◌*◌, ◌<◌, ◌≤◌, length};
ghost use Rattle.laws.specs.Candidate.{none, better_of};
ghost use Rattle.cells.specs.Cells.{view, cell};
ghost use Rattle.cells.specs.Memory.{row_at, Makes, Made, Put, RowWritten, Betters, Bettering, BetteringBy, ChargesFrom, ChargingFrom};
ghost use Rattle.cells.specs.Memory.{Charges, Charging, Follows, Joins, Joining, Adds};

use super::candidate::Candidate;

// The candidate at a cell.
pub fn read(work: &[u64], at: usize) -> Candidate
    requires { 2 * at + 1 < length work.now }
    ensures { view result ≡ cell work.now at }
{
    let k = 2 * at;
    Candidate {
        score: work[k],
        set: work[k + 1],
    }
}

// Column b of the row that begins at a cell. The row at cell 0 has no set in any column, so it is not read.
fn column(work: &[u64], row: usize, b: usize) -> Candidate
    requires inside { 2 * (row + b) + 1 < length work.now }
    requires blank { row ≡ 0 → cell work.now (row + b) ≡ none }
    ensures { view result ≡ cell work.now (row + b) }
{
    if row == 0 {
        return Candidate::none();
    }
    read(work, row + b)
}

// Puts a candidate at a cell.
fn put(work: &mut [u64], at: usize, c: Candidate)
    requires { 2 * at + 1 < length work.old }
    ensures { Put at (view c) work.old work.new }
{
    let k = 2 * at;
    work[k] = c.score;
    work[k + 1] = c.set;
}

// Makes each column of a row from lo up to hi what `make` gives for it. From the first column to the last: `make` reads the rows
// as they stand when the columns before it are made.
fn each_column<F: Fn(&[u64], usize) -> Candidate>(
    work: &mut [u64],
    to: usize,
    lo: usize,
    hi: usize,
    make: F,
)
    requires inside { 2 * (to + hi) ≤ length work.old }
    requires makes { Makes (F.pre make) to lo hi work.old }
    ensures { Made (F.post make) to lo hi work.old work.new }
{
    for b in lo..hi {
        let c = make(work, b);
        put(work, to + b, c);
    }
}

// Makes every column of a row from lo up to hi one candidate.
pub fn fill_row(work: &mut [u64], to: usize, c: Candidate, lo: usize, hi: usize)
    requires { 2 * (to + hi) ≤ length work.old }
    ensures { RowWritten to lo hi (λ _. view c) work.old work.new }
{
    each_column(work, to, lo, hi, |_, _| c);
}

// Betters every column of a row from lo up to hi by one candidate.
pub fn better_by(work: &mut [u64], to: usize, c: Candidate, lo: usize, hi: usize)
    requires { 2 * (to + hi) ≤ length work.old }
    ensures { BetteringBy to (view c) lo hi work.old work.new }
{
    each_column(work, to, lo, hi, |rows, b| read(rows, to + b).better(c));
}

// Makes each column of a row the better of two rows' columns. It and `add_row` differ in what a column is made of, as closures do.
pub fn better_rows(work: &mut [u64], to: usize, x: usize, y: usize, width: usize)
    requires { Betters work.old to x y width }
    ensures { Bettering to x y width work.old work.new }
{
    each_column(work, to, 0, width, |rows, b| {
        read(rows, x + b).better(column(rows, y, b))
    });
}

// Makes each column from the price on the better of two: one row's, moved right by the price and charged with a heading, and
// another's. It alone goes from the last column to the first, so that the row that is written may be the one that is moved.
pub fn charge_from(
    work: &mut [u64],
    to: usize,
    x: usize,
    branch: u64,
    price: usize,
    y: usize,
    width: usize,
)
    requires { ChargesFrom work.old to x branch price y width }
    ensures { ChargingFrom to x branch price y width work.old work.new }
{
    for b in (price..width).rev() {
        let moved = read(work, x + (b - price));
        let other = column(work, y, b);
        let charged = moved.charged(branch, price as u64);
        put(work, to + b, charged.better(other));
    }
}

// Moves a row right by the price and charges it with a heading, in place; each column then is the better of that and another
// row's. Free headings have a call of their own, so that the compiler makes a loop for them that moves nothing.
pub fn charge_row(work: &mut [u64], to: usize, branch: u64, price: usize, y: usize, width: usize)
    requires { Charges work.old to branch price y width }
    ensures { Charging to branch price y width work.old work.new }
{
    if price == 0 {
        charge_from(work, to, to, branch, 0, y, width);
        return;
    }
    charge_from(work, to, to, branch, price, y, width);
    better_rows(work, to, y, 0, width.min(price));
}

// What may follow in a column: the better of two rows'. The row at `width` has nothing chosen in any column, so it is not read.
fn follower(work: &[u64], x: usize, y: usize, b: usize, width: usize) -> Candidate
    requires { Follows work.now x y b width }
    ensures { view result ≡ better_of (cell work.now (x + b)) (cell work.now (y + b)) }
{
    let other = column(work, y, b);
    if x == width {
        return Candidate::nothing().better(other);
    }
    read(work, x + b).better(other)
}

// What `join_row` makes a column of: what stands in that column of the row at `own`, below groups that cost `above`, joined with the
// better of the rows at `x` and `y` for what the cost leaves; or else the row at `z`.
#[derive(Clone, Copy)]
pub struct Join {
    pub own: usize,
    pub above: usize,
    pub cost: usize,
    pub x: usize,
    pub y: usize,
    pub z: usize,
}

// Makes each column from the cost on the better of the join and the row at `z`. The row that is written may be the one at `own`.
pub fn join_row(work: &mut [u64], to: usize, join: Join, width: usize)
    requires { Joins work.old to join.own join.above join.cost join.x join.y join.z width }
    ensures { Joining to join.own join.above join.cost join.x join.y join.z width work.old work.new }
{
    each_column(work, to, join.cost, width, |rows, b| {
        let c = read(rows, join.own + b).charged(0, join.above as u64);
        let next = follower(rows, join.x, join.y, b - join.cost, width);
        c.joined(next).better(column(rows, join.z, b))
    });
}

// Adds another row to one that has nothing chosen in any column: what the two have together is what the other has.
pub fn add_row(work: &mut [u64], to: usize, y: usize, width: usize)
    requires { Adds work.old to y width }
    ensures { RowWritten to 0 width (row_at work.old y) work.old work.new }
{
    each_column(work, to, 0, width, |rows, b| {
        read(rows, to + b).added(column(rows, y, b))
    });
}
