// The recursion over the links: what the chosen taxa of a chain come to. Outline, record, marks and the number of all that are chosen go
// side by side: in a struct of references a clause would say `set.now.marks.now` for `marks.now`.
ghost use Rattle.std.specs.Prelude.{if◌then◌else◌, ◌≡◌, ◌-◌, ◌&&◌};
ghost use Rattle.lists.specs.Lists.{positive};
ghost use Rattle.outline.specs.Outline.{branch, price, IsRecord};
ghost use Rattle.measures.specs.Inner.{InClade, CladeMeasured, InChain, ChainMeasured};

use super::figures::Measure;
use super::marks::is_chosen;
use outline::fields::{branch_of, first_of, next_of, price_of};

// What record r adds to the cost, with so many chosen taxa at or below it.
fn price_counted(o: &[u8], r: usize, below: u32) -> u32
    requires { IsRecord o.now r }
    ensures { result ≡ (if positive below then price o.now r else 0) }
{
    if below == 0 { 0 } else { price_of(o, r) }
}

// What record r adds to the diversity, with so many of all chosen taxa at or below it.
fn branch_counted(o: &[u8], r: usize, below: u32, all: u32) -> u32
    requires { IsRecord o.now r }
    ensures { result ≡ (if positive below && positive (all - below) then branch o.now r else 0) }
{
    if below == 0 || all <= below {
        0
    } else {
        branch_of(o, r)
    }
}

// The clade of record r, from its members.
fn measure_clade(o: &[u8], r: usize, marks: &[u8], all: u32, members: Measure) -> Measure
    requires { InClade o.now r marks.now all members }
    ensures { CladeMeasured o.now r marks.now all result }
{
    let own = is_chosen(marks, r) as u32;
    let below = members.taxa + own;
    Measure {
        taxa: below,
        cost: members.cost + price_counted(o, r, below),
        diversity: members.diversity + branch_counted(o, r, below, all),
    }
}

// The chain that begins at record r; 0 for the empty chain.
pub fn measure_chain(o: &[u8], r: usize, marks: &[u8], all: u32) -> Measure
    requires { InChain o.now r marks.now }
    ensures { ChainMeasured o.now r marks.now all result }
{
    if r == 0 {
        return Measure::default();
    }
    let f = first_of(o, r);
    let members = measure_chain(o, f, marks, all);
    let own = measure_clade(o, r, marks, all, members);
    let n = next_of(o, r);
    let rest = measure_chain(o, n, marks, all);
    own + rest
}
