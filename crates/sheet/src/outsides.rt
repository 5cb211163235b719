// The first taxon of a set outside each chain, by its place. The loop goes by number: each turn reads at a record's number and writes
// at those that its links hold.
ghost use Rattle.std.specs.Prelude.{if◌then◌else◌, ◌≡◌, eqb};
ghost use Rattle.sheet.specs.Inner.{no_place, HasFirsts, Outsides};

use super::firsts::{NONE, place_of};
use outline::fields::{first_of, next_of};
use outline::limits::NUMBERS;

// The place of the first taxon outside the whole tree: rooted, it is as if one stood above the root from the first place on.
fn outside_root(way: u32) -> usize
    ensures { result ≡ (if eqb way 0 then 0 else no_place) }
{
    if way == 0 { 0 } else { NONE }
}

// The place of the first taxon outside the chain that begins at each record. One pass from the root on: outside the chain of a record's
// members are the record itself and the rest of its chain, outside that rest are the record and its members.
pub fn outsides_of(o: &[u8], way: u32, set: &[u8], firsts: &[usize; NUMBERS]) -> [usize; NUMBERS]
    requires { HasFirsts o.now set.now firsts.now }
    ensures { Outsides o.now way set.now result }
{
    let n = o.len() / 16;
    let mut outsides = [outside_root(way); NUMBERS];
    for r in 1..=n {
        let first = first_of(o, r);
        let next = next_of(o, r);
        let around = outsides[r].min(place_of(set, r));
        outsides[first] = around.min(firsts[next]);
        outsides[next] = around.min(firsts[first]);
    }
    outsides
}
