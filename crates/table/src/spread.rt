// The unrooted way: every pair of a clade and the rest of its chain, by one recursion over the links.
ghost use Rattle.std.specs.Prelude.{if◌then◌else◌, ◌≡◌, ◌≤◌, eqb};
ghost use Rattle.table.specs.Table.{IsTaxon, most_above, Finished};
ghost use Rattle.table.specs.Spread.{Running, Spreadable, Spread, BySingle, ByPairs, TaxonSpreadable, TaxonSpread, Crossable, Crossed, Tops, ByRow, Meets, Met};

use super::push::{charge_heading, push};
use super::taxa::{join_terminal, taxon_of, terminal_row};
use cells::memory::{Join, better_by, better_rows, charge_from, join_row};
use outline::fields::{first_of, is_locked, next_of, price_of};

// Betters the running optimum by taxon r alone, below groups that cost `above` together. It has no diversity, so that it is better
// than nothing only if all of it is free or it is locked.
fn better_by_single(o: &[u8], r: usize, above: usize, width: usize, work: &mut [u64])
    requires running { Running o.now width work.old }
    requires taxon { IsTaxon o.now r }
    requires above_few { above ≤ most_above }
    ensures { BySingle o.now r above width work.old work.new }
{
    let cost = above + price_of(o, r) as usize;
    if width <= cost {
        return;
    }
    if (cost == 0) | is_locked(o, r) {
        better_by(work, 2 * width, taxon_of(o, r, 0, cost as u64), cost, width);
    }
}

// Betters the running optimum by taxon r, whose finished row stands at `own`, with something in the rest of its chain, below
// groups that cost `above` together.
fn better_by_pairs(
    o: &[u8],
    r: usize,
    rest: usize,
    above: usize,
    own: usize,
    width: usize,
    work: &mut [u64],
)
    requires taxon_spreadable { TaxonSpreadable o.now r rest above own width work.old }
    requires finished { Finished o.now r own width work.old }
    ensures { ByPairs o.now r rest above width work.old work.new }
{
    if rest != 0 {
        let cost = above + price_of(o, r) as usize;
        let top = 2 * width;
        let pairs = Join {
            own,
            above,
            cost,
            x: rest,
            y: 0,
            z: top,
        };
        join_row(work, top, pairs, width);
    }
}

// Taxon r, with the rest of its chain at `rest`, below groups that cost `above` together: first its row by itself; from that the
// running optimum is bettered, and then it is joined with the rest.
fn spread_taxon(
    o: &[u8],
    r: usize,
    rest: usize,
    above: usize,
    to: usize,
    width: usize,
    work: &mut [u64],
)
    requires { TaxonSpreadable o.now r rest above to width work.old }
    ensures { TaxonSpread o.now r rest above to width work.old work.new }
{
    terminal_row(o, r, to, width, work);
    better_by_single(o, r, above, width, work);
    better_by_pairs(o, r, rest, above, to, width, work);
    join_terminal(o, r, width, rest, to, width, work);
}

// Something in the clade of group r with something in the rest of its chain: either side can be pushed over the other. Which of the two
// is a `bool` here and no test at the caller, where the two ways would meet: each later fact of the memory would be of one of two.
fn cross(o: &[u8], r: usize, by_members: bool, to: usize, width: usize, work: &mut [u64])
    requires { Crossable o.now r to width work.old }
    ensures { Crossed o.now r to width work.old work.new }
{
    let own = 2 * ((r + 1) * width);
    if by_members {
        push(o, first_of(o, r), own + width, to, width, work);
        charge_heading(o, r, to, 0, width, work);
        return;
    }
    push(o, next_of(o, r), own, to, width, work);
}

// Betters the running optimum by the row at `to`, moved right by what the groups above it cost together.
fn better_top(work: &mut [u64], to: usize, above: usize, width: usize)
    requires { Tops work.old to above width }
    ensures { ByRow to above width work.old work.new }
{
    if above == 0 {
        better_rows(work, 2 * width, 2 * width, to, width);
    } else {
        charge_from(work, 2 * width, to, 0, above, 2 * width, width);
    }
}

// Betters the running optimum by the crossing row at `to`, below groups that cost `above`, and the crossing row by the two at
// `own`.
fn meet(work: &mut [u64], own: usize, to: usize, above: usize, width: usize)
    requires { Meets work.old own to above width }
    ensures { Met own to above width work.old work.new }
{
    better_top(work, to, above, width);
    better_rows(work, own, own, own + width, width);
    better_rows(work, to, own, to, width);
}

// Where the row of the rest of a chain stands, which begins at n.
fn rest_at(n: usize, at: usize) -> usize
    ensures { result ≡ (if eqb n 0 then 0 else at) }
{
    if n == 0 {
        return 0;
    }
    at
}

// Makes the rooted row of the chain of record r at `to`, and betters the running optimum by every set in the chain, unrooted,
// below groups that cost `above` together. Gives the number of records in the chain.
pub fn spread(o: &[u8], r: usize, above: usize, to: usize, width: usize, work: &mut [u64]) -> usize
    requires { Spreadable o.now r above to width work.old }
    ensures { Spread o.now r above to width work.old work.new result }
{
    if r == 0 {
        return 0;
    }
    let own = 2 * ((r + 1) * width);
    let n = next_of(o, r);
    let later = spread(o, n, above, own + width, width, work);
    let f = first_of(o, r);
    if f == 0 {
        spread_taxon(o, r, rest_at(n, own + width), above, to, width, work);
        return 1 + later;
    }
    let below = above + price_of(o, r) as usize;
    if n == 0 {
        let members = spread(o, f, below, to, width, work);
        charge_heading(o, r, to, 0, width, work);
        return 1 + members;
    }
    let members = spread(o, f, below, own, width, work);
    charge_heading(o, r, own, 0, width, work);
    cross(o, r, members < later, to, width, work);
    meet(work, own, to, above, width);
    1 + members + later
}
