// The way up from each record, and which records count for a set.
ghost use Rattle.std.specs.Prelude.{◌≡◌};
ghost use Rattle.outline.specs.WellFormed.{WellFormed};
ghost use Rattle.quick.specs.Inner.{Parents, Rising, Joined, Markable, HasHeld};

use measures::is_chosen;
use outline::fields::{first_of, next_of};
use outline::limits::NUMBERS;

// The parent of each record, 0 for record 1: a record is that of its first member, and hands its own on to the next of its chain. With 0,
// where both tables of `Sums` have 0, record 1 adds up as any other. By number: a turn reads at a record's and writes at those of its links.
fn parents_of(o: &[u8]) -> [usize; NUMBERS]
    requires { WellFormed o.now }
    ensures { Parents o.now result }
{
    let mut parents = [0; NUMBERS];
    for r in 1..=o.len() / 16 {
        let first = first_of(o, r);
        let next = next_of(o, r);
        let parent = parents[r];
        parents[first] = r;
        parents[next] = parent;
    }
    parents
}

// The parent of each record, and whether a marked set holds it: whether it has a taxon of the set at or below it, so that its branch
// and its price count. Two tables, as in `Sums`: each has laws of its own.
#[derive(Drop)]
pub struct Ways {
    pub parents: [usize; NUMBERS],
    pub held: [bool; NUMBERS],
}

impl Ways {
    // Those of a marked set.
    pub fn of(o: &[u8], marks: &[u8]) -> Ways
        requires { Markable o.now marks.now }
        ensures { HasHeld o.now marks.now result }
    {
        let mut ways = Ways {
            parents: parents_of(o),
            held: [false; NUMBERS],
        };
        for r in 1..=o.len() / 16 {
            if is_chosen(marks, r) {
                ways.hold(r);
            }
        }
        ways
    }

    // A taxon joins the set: what is on its way up is held from now on. Above a record that is held already, all are.
    pub fn hold(&mut self, t: usize)
        requires { Rising self.old t }
        ensures { Joined self.old t self.new }
    {
        // up from parent to parent: `iter::successors` goes so too, but tells no bound on how far, so a loop over it is not proved to end
        let mut at = t;
        while at != 0 {
            if self.held[at] {
                return;
            }
            self.held[at] = true;
            at = self.parents[at];
        }
    }
}
