// Measuring the set of taxa that is marked.
ghost use Rattle.std.specs.Prelude.{◌≡◌};
ghost use Rattle.diversity.specs.Diversity.{chosen};
ghost use Rattle.measures.specs.Measures.{HasMark, Measurable, Measured};
ghost use Rattle.measures.specs.Inner.{Marked};

use super::chain::measure_chain;
use super::figures::Measure;
use lists::count;

// Whether record r is chosen: its mark is 1. Marks are bytes, as the C interface lends them.
#[tactic(auto, unfolding(diversity::specs::Diversity::chosen))]
pub fn is_chosen(marks: &[u8], r: usize) -> bool
    requires { HasMark marks.now r }
    ensures { result ≡ chosen marks.now r }
{
    marks[r - 1] == 1
}

// How many records are marked.
pub fn marked(o: &[u8], marks: &[u8]) -> u32
    requires { Measurable o.now marks.now }
    ensures { Marked o.now marks.now result }
{
    count(o.len() / 16, |r| is_chosen(marks, r)) as u32
}

// The measures of the marked set, its diversity by the way of counting: rooted for 0, else unrooted. The unrooted way counts a
// branch with some of all chosen taxa below it and some elsewhere; the rooted one has, so to say, one more of them above the root.
// The way is the number that C hands over: an enum would ask more of the caller.
pub fn measure(o: &[u8], marks: &[u8], way: u32) -> Measure
    requires { Measurable o.now marks.now }
    ensures { Measured o.now marks.now way result }
{
    let all = marked(o, marks) + (way == 0) as u32;
    measure_chain(o, 1, marks, all)
}
