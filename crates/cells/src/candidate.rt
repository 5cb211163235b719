// A candidate: a set of taxa and what it is worth, or none.
ghost use Rattle.std.specs.Prelude.{◌≡◌, ◌≢◌, ◌-◌, ◌<◌};
ghost use Rattle.laws.specs.Candidate.{nothing_worth, none, some, better_of, join_of, charge_of};
ghost use Rattle.cells.specs.Cells.{unit, lift, view, locked_of, diversity_of, cost_of, Joinable, Chargeable};

// A score takes locked taxa and diversity times UNIT, less the cost. Costs are below UNIT, so that scores compare by cost last.
pub const UNIT: u64 = 1 << 16;

// Locked taxa count LIFT times in it. Diversities are below LIFT, so that scores compare by locked taxa first.
pub const LIFT: u64 = 1 << 32;

// Two words that compare as sets do, and are stored and read as they are. No set is a score of 0 and no `Option`: a cell is two
// words of the memory that is lent through C, and `added` adds them with no test.
#[derive(Clone, Copy)]
pub struct Candidate {
    // (locked taxa times LIFT + diversity + 1) times UNIT, less the cost; 0 for no set
    pub score: u64,
    // the taxa as a binary number, the first taxon the most significant digit
    pub set: u64,
}

impl Candidate {
    // No set. A `Default` would not tell it from nothing chosen, which is a set.
    pub fn none() -> Self
        ensures { view result ≡ none }
    {
        Self { score: 0, set: 0 }
    }

    // Nothing chosen, which is a set.
    pub fn nothing() -> Self
        ensures { view result ≡ some nothing_worth }
    {
        Self::some(0, 0, 0, 0)
    }

    // A set by its worth.
    pub fn some(locked: u64, diversity: u64, cost: u64, set: u64) -> Self
        requires { (locked < unit - 1) × (diversity < lift) × (cost < unit) }
        ensures { view result ≡ some (record { locked = locked; diversity = diversity; cost = cost; code = set }) }
    {
        Self {
            score: (locked * LIFT + diversity + 1) * UNIT - cost,
            set,
        }
    }

    // More locked taxa, then more diversity, then less cost, then the greater number, which has the first taxon on which two sets differ.
    // By hand: with the derived order's `max` all of choosing took 1.07 to 1.14 times as long, whichever of the two was asked.
    pub fn better(self, other: Candidate) -> Self
        ensures { view result ≡ better_of (view self) (view other) }
    {
        if self.score == other.score {
            if self.set < other.set {
                return other;
            }
            return self;
        }
        if self.score < other.score {
            return other;
        }
        self
    }

    // Nothing chosen, and another set: the other. The words add up whether it is there or not.
    pub fn added(self, other: Candidate) -> Self
        requires { view self ≡ some nothing_worth }
        ensures { view result ≡ view other }
    {
        Self {
            score: self.score - UNIT + other.score,
            set: self.set + other.set,
        }
    }

    // Both sets together, which have no taxon in common: this one is there; none if the other is none.
    pub fn joined(self, other: Candidate) -> Self
        requires { Joinable (view self) (view other) × (view self ≢ none) }
        ensures { view result ≡ join_of (view self) (view other) }
    {
        if other.score == 0 {
            return other;
        }
        Self {
            score: self.score + other.score - UNIT,
            set: self.set + other.set,
        }
    }

    // The set with a heading above it: a branch and a price.
    pub fn charged(self, branch: u64, price: u64) -> Self
        requires { Chargeable (view self) branch price }
        ensures { view result ≡ charge_of (view self) branch price }
    {
        if self.score == 0 {
            return self;
        }
        Self {
            score: self.score + branch * UNIT - price,
            set: self.set,
        }
    }

    // 0 for no set.
    pub fn diversity(self) -> u64
        ensures { result ≡ diversity_of (view self) }
    {
        self.score.checked_sub(1).map_or(0, |w| w / UNIT % LIFT)
    }

    // 0 for no set.
    pub fn locked(self) -> u64
        ensures { result ≡ locked_of (view self) }
    {
        self.score.checked_sub(1).map_or(0, |w| w / UNIT / LIFT)
    }

    // 0 for no set.
    pub fn cost(self) -> u64
        ensures { result ≡ cost_of (view self) }
    {
        self.score.checked_sub(1).map_or(0, |w| UNIT - 1 - w % UNIT)
    }
}
