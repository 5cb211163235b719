// What each record adds to the quarters and to the diversity of the taxa before it. Two short loops, by number, since a turn reads at a record's and
// adds at a taxon's place: one loop that took what is added,
// and where, from closures would need two contracts at each caller, longer than the loop.
ghost use Rattle.diversity.specs.Diversity.{diversity, cost};
ghost use Rattle.measures.specs.Measures.{Measurable};
ghost use Rattle.sheet.specs.Inner.{HasFirsts, Adds, AddsBoth};

use super::firsts::{firsts_of, opened_at};
use super::outsides::outsides_of;
use outline::fields::{branch_of, next_of, price_of};
use outline::limits::NUMBERS;

// Both, at the place of each record's mark. Two arrays and none of pairs: each has laws of its own.
#[derive(Drop)]
pub struct Additions {
    pub quarters: [u32; NUMBERS],
    pub diversity: [u32; NUMBERS],
}

impl Additions {
    // Those of the records of an outline to a set.
    pub fn of(o: &[u8], way: u32, set: &[u8]) -> Additions
        requires { Measurable o.now set.now }
        ensures { AddsBoth o.now way set.now result }
    {
        let firsts = firsts_of(o, set);
        Additions {
            quarters: quarters_of(o, set, &firsts),
            diversity: diversity_of(o, way, set, &firsts),
        }
    }
}

// A price counts from the first taxon on that is at or below its record, so it is added at that taxon's place: one pass for all rows. What
// never counts is added at the place of none, which has no row. Neither table is inlined, so that what both are made of is off the stack when the set
// is measured.
#[inline(never)]
fn quarters_of(o: &[u8], set: &[u8], firsts: &[usize; NUMBERS]) -> [u32; NUMBERS]
    requires { HasFirsts o.now set.now firsts.now }
    ensures { Adds o.now (cost o.now) set.now result }
{
    let n = o.len() / 16;
    let mut table = [0; NUMBERS];
    for r in 1..=n {
        let at = opened_at(o, set, firsts, r);
        table[at] += price_of(o, r);
    }
    table
}

// A branch counts once a taxon is at or below its record and another is not, so it is added at the higher of the two places.
#[inline(never)]
fn diversity_of(o: &[u8], way: u32, set: &[u8], firsts: &[usize; NUMBERS]) -> [u32; NUMBERS]
    requires { HasFirsts o.now set.now firsts.now }
    ensures { Adds o.now (diversity o.now way) set.now result }
{
    let n = o.len() / 16;
    let outsides = outsides_of(o, way, set, firsts);
    let mut table = [0; NUMBERS];
    for r in 1..=n {
        let below = opened_at(o, set, firsts, r);
        let elsewhere = outsides[r].min(firsts[next_of(o, r)]);
        let at = below.max(elsewhere);
        table[at] += branch_of(o, r);
    }
    table
}
