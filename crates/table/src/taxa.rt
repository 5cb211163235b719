// What a taxon alone is worth, and rows with it.
ghost use Rattle.std.specs.Prelude.{◌≡◌, ◌<◌};
ghost use Rattle.laws.specs.Candidate.{some};
ghost use Rattle.laws.specs.Numbers.{weight};
ghost use Rattle.cells.specs.Cells.{lift, unit, view, word_limit};
ghost use Rattle.cells.specs.Memory.{Joins, Joining};
ghost use Rattle.table.specs.Table.{IsTaxon, taxon_worth, TerminalFills, TerminalFilled, Finished, TaxonJoins, TaxonRow};
ghost use Rattle.outline.specs.Outline.{IsRecord};

use cells::candidate::Candidate;
use cells::memory::{Join, add_row, fill_row, join_row, read};
use outline::fields::{branch_of, is_locked, is_taxon, price_of};

// 2 to the number of taxa after record r. Summed, since with `filter` and `count` all of choosing took 1.1 times as long at page count 96.
// The range is half open, as those are with which std's lemmas on chains begin.
fn weight_of(o: &[u8], r: usize) -> u64
    requires is_record { IsRecord o.now r }
    requires weight_fits { weight o.now r < word_limit }
    ensures { result ≡ weight o.now r }
{
    let n = o.len() / 16;
    let taxa: u64 = (r + 1..n + 1).map(|q| is_taxon(o, q) as u64).sum();
    1 << taxa
}

// Taxon r by itself, at the diversity and the cost that it has.
pub fn taxon_of(o: &[u8], r: usize, diversity: u64, cost: u64) -> Candidate
    requires taxon { IsTaxon o.now r }
    requires diversity_fits { diversity < lift }
    requires cost_fits { cost < unit }
    ensures { view result ≡ some (taxon_worth o.now r diversity cost) }
{
    Candidate::some(is_locked(o, r) as u64, diversity, cost, weight_of(o, r))
}

// Makes the row of taxon r by itself, as document 000 fills the row of a terminal branch (CALCULATE, its Algorithm 2): zeros in the
// columns up to the price, which is nothing chosen, and then the length in the columns from the price on, which is the taxon.
// Nothing chosen is read from its row, since two words in registers are stored faster than two constants.
pub fn terminal_row(o: &[u8], r: usize, to: usize, width: usize, work: &mut [u64])
    requires { TerminalFills o.now r to width work.old }
    ensures { TerminalFilled o.now r to width work.old work.new }
{
    let price = price_of(o, r) as usize;
    let nothing = read(work, width);
    fill_row(work, to, nothing, 0, width.min(price));
    if price < width {
        let taxon = taxon_of(o, r, branch_of(o, r) as u64, price as u64);
        fill_row(work, to, taxon, price, width);
    }
}

// Joins a finished row, where it stands, in the columns from the price on: with the better of x and y, or else y. That there is no
// rest has a call of its own, so that the compiler makes a loop for it that reads none.
fn join_rest(work: &mut [u64], to: usize, price: usize, x: usize, y: usize, width: usize)
    requires { Joins work.old to to 0 price x y y width }
    ensures { Joining to to 0 price x y y width work.old work.new }
{
    let join = Join {
        own: to,
        above: 0,
        cost: price,
        x,
        y,
        z: y,
    };
    if y == 0 {
        let alone = Join { y: 0, z: 0, ..join };
        join_row(work, to, alone, width);
    } else {
        join_row(work, to, join, width);
    }
}

// The same. That nothing follows has a call of its own too.
fn join_after(work: &mut [u64], to: usize, price: usize, x: usize, y: usize, width: usize)
    requires { Joins work.old to to 0 price x y y width }
    ensures { Joining to to 0 price x y y width work.old work.new }
{
    if x == width {
        join_rest(work, to, price, width, y, width);
    } else {
        join_rest(work, to, price, x, y, width);
    }
}

// Joins the finished row of taxon r, where it stands, with what stands beside it: below the price nothing with y, and from the
// price on the taxon with the better of x and y, or else y.
pub fn join_terminal(
    o: &[u8],
    r: usize,
    x: usize,
    y: usize,
    to: usize,
    width: usize,
    work: &mut [u64],
)
    requires finished { Finished o.now r to width work.old }
    requires taxon_joins { TaxonJoins o.now r x y to width work.old }
    ensures { TaxonRow o.now r x y to width work.old work.new }
{
    let price = price_of(o, r) as usize;
    add_row(work, to, y, width.min(price));
    join_after(work, to, price, x, y, width);
}
