// What a set of taxa comes to.
ghost use Rattle.measures.specs.Inner.{Addable, Added};

use std::ops::Add;

// The number of its taxa, their cost with the headings above them, and their diversity.
#[derive(Clone, Copy, Debug, Default, PartialEq, Eq)]
pub struct Measure {
    pub taxa: u32,
    pub cost: u32,
    pub diversity: u32,
}

// Two parts of a set, taken together.
impl Add for Measure {
    type Output = Measure;

    ghost can_add = { Addable };

    ghost add_gives = { Added };

    fn add(self, other: Measure) -> Measure {
        Measure {
            taxa: self.taxa + other.taxa,
            cost: self.cost + other.cost,
            diversity: self.diversity + other.diversity,
        }
    }
}
