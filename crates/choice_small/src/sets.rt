// Sets of taxa of an outline, what they are worth by the definitions of documents 01 and 02, and the best of them, found by
// trying every set.
ghost use Rattle.std.specs.Prelude.{◌≤◌};

use outline::fields::{branch_of, first_of, is_locked, next_of, plate_of, price_of};
use samples::outlines::Sample;
use samples::ways::Way;
use std::alloc::{AllocError, Global};
use std::cmp::Reverse;

// A set, and what it is worth. It is a number whose binary digits stand for the taxa, the highest for the first. The better
// set is the greater here: it has more diversity, then less cost, then the first taxon on which the two differ.
#[derive(Clone, Copy, PartialEq, Eq, PartialOrd, Ord)]
pub struct Worth {
    pub diversity: u32,
    pub cost: Reverse<u32>,
    pub set: u32,
}

// An outline, the set of the taxa at or below each record, the number of sets, and the set of the locked taxa.
#[derive(Clone, Copy)]
pub struct Tree {
    pub outline: Sample,
    under: [u32; 130],
    sets: u32,
    pub locked: u32,
}

impl Tree {
    // A link names a later record, so the later records come first.
    pub fn new(outline: Sample) -> Self {
        let o = outline.bytes();
        let (mut sets, mut locked) = (1u32, 0);
        let mut under = [0; 130];
        // the taxa of a record and of the rest of its chain
        let mut chains = [0; 130];
        // by number: links are numbers of records
        for r in (1..=outline.len).rev() {
            let mut taxa = chains.get(first_of(o, r)).copied().unwrap_or(0);
            if plate_of(o, r) != 0 {
                taxa = sets;
                sets = sets.wrapping_mul(2);
            }
            if is_locked(o, r) {
                locked |= taxa;
            }
            under[r] = taxa;
            chains[r] = taxa | chains.get(next_of(o, r)).copied().unwrap_or(0);
        }
        Self {
            outline,
            under,
            sets,
            locked,
        }
    }

    // Whether a set has taxon r, by its number, as all that goes over the records.
    pub fn has(&self, set: u32, r: usize) -> bool
        requires { (1 ≤ r) × (r ≤ self.now.outline.len) }
    {
        plate_of(self.outline.bytes(), r) != 0 && set & self.under[r] != 0
    }

    // What a set is worth: the prices of its taxa and of the groups above them, and the lengths above them, unrooted those
    // with a taxon of the set elsewhere too.
    fn worth(&self, way: Way, set: u32) -> Worth {
        let o = self.outline.bytes();
        let (mut diversity, mut cost) = (0u32, 0u32);
        // one loop for both sums: two chains would ask twice whether the record counts
        for r in 1..=self.outline.len {
            if set & self.under[r] != 0 {
                cost = cost.wrapping_add(price_of(o, r));
                if way == Way::Rooted || set & !self.under[r] != 0 {
                    diversity = diversity.wrapping_add(branch_of(o, r));
                }
            }
        }
        Worth {
            diversity,
            cost: Reverse(cost),
            set,
        }
    }

    // The cost of all taxa.
    pub fn dearest(&self) -> u32 {
        self.worth(Way::Rooted, self.sets.wrapping_sub(1)).cost.0
    }

    // The best of all sets for each count up to one, of those that hold every locked taxon.
    pub fn bests(
        &self,
        alloc: Global,
        way: Way,
        most: u32,
    ) -> Result<Vec<Option<Worth>>, AllocError> {
        let sets: Vec<Worth> = (0..self.sets)
            .filter(|set| set & self.locked == self.locked)
            .map(|set| self.worth(way, set))
            .collect(alloc)?;
        (0..=most).map(|count| best(&sets, count)).collect(alloc)
    }
}

// The best of these for a count.
fn best(sets: &[Worth], count: u32) -> Option<Worth> {
    sets.iter().copied().filter(|x| x.cost.0 <= count).max()
}
