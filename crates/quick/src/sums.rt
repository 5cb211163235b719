// What each record would add to a set.
ghost use Rattle.std.specs.Prelude.{◌≡◌, ◌<◌, get_or};
ghost use Rattle.outline.specs.Inner.{numbers};
ghost use Rattle.quick.specs.Inner.{rather_by, SumsLong, CanAdd, AddedUp};

use outline::fields::{branch_of, price_of};
use outline::limits::NUMBERS;
use std::cmp::Reverse;

// In diversity, and in quarters; 0 where the set holds the record, and where it was not yet looked at. They are two tables: each has laws
// of its own, and of a table of structs a clause would say `(get_or table q no_sum).added` for `get_or added q 0`.
#[derive(Default, Drop)]
pub struct Sums {
    pub added: [u32; NUMBERS],
    pub costs: [u32; NUMBERS],
}

impl Sums {
    // Record r, which is not held, adds its branch and its price to what its parent adds.
    pub fn add_up(&mut self, o: &[u8], parents: &[usize; NUMBERS], r: usize)
        requires { CanAdd o.now parents.now self.old r }
        ensures { AddedUp o.now parents.now r self.old self.new }
    {
        let parent = parents[r];
        self.added[r] = self.added[parent] + branch_of(o, r);
        self.costs[r] = self.costs[parent] + price_of(o, r);
    }

    // Whether record t is picked rather than u: it adds more diversity, then fewer quarters, then it is the lower record.
    pub fn rather(&self, t: usize, u: usize) -> bool
        requires { SumsLong self.now × ((t < numbers) × (u < numbers)) }
        ensures { result ≡ rather_by
            (get_or self.now.added t 0) (get_or self.now.added u 0)
            (get_or self.now.costs t 0) (get_or self.now.costs u 0) t u }
    {
        (Reverse(self.added[t]), self.costs[t], t) < (Reverse(self.added[u]), self.costs[u], u)
    }
}
