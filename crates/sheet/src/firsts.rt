// The first taxon of a set in each chain, by its place.
ghost use Rattle.std.specs.Prelude.{◌≡◌};
ghost use Rattle.measures.specs.Measures.{HasMark, Measurable};
ghost use Rattle.sheet.specs.Inner.{place_of, Since, price_counts, AtRecord, Firsts};

use measures::is_chosen;
use outline::fields::{first_of, next_of};
use outline::limits::{MOST_RECORDS, NUMBERS};

// A taxon's place is that of its mark, one less than its record's number: a number, since the tables of what is added are by place. None is
// past every mark's place, and no `Option`, so that the lower of two places is `min`.
pub const NONE: usize = MOST_RECORDS;

// The place of record r, if it is chosen.
pub fn place_of(set: &[u8], r: usize) -> usize
    requires { HasMark set.now r }
    ensures { result ≡ place_of set.now r }
{
    if is_chosen(set, r) { r - 1 } else { NONE }
}

// From which place on the price of record r counts: that of the first taxon at or below it.
pub fn opened_at(o: &[u8], set: &[u8], firsts: &[usize; NUMBERS], r: usize) -> usize
    requires { AtRecord o.now set.now firsts.now r }
    ensures { Since result (price_counts o.now set.now r) }
{
    place_of(set, r).min(firsts[first_of(o, r)])
}

// The place of the first taxon in the chain that each link begins. Links lead to later records, so a pass from the last record on finds
// what it needs. By number: a turn reads at the records that its links name.
pub fn firsts_of(o: &[u8], set: &[u8]) -> [usize; NUMBERS]
    requires { Measurable o.now set.now }
    ensures { Firsts o.now set.now result }
{
    let n = o.len() / 16;
    let mut firsts = [NONE; NUMBERS];
    for r in (1..=n).rev() {
        let own = opened_at(o, set, &firsts, r);
        firsts[r] = own.min(firsts[next_of(o, r)]);
    }
    firsts
}
