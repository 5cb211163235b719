// Making the picks, one after the other.
ghost use Rattle.std.specs.Prelude.{◌≡◌};
ghost use Rattle.quick.specs.Inner.{PicksFit, PicksDone};

use super::picker::next_pick;
use super::ways::Ways;
use measures::measure;

// Makes at most so many picks.
pub fn make_picks(o: &[u8], count: u32, picks: u32, marks: &mut [u8], ways: &mut Ways)
    requires { PicksFit o.now count marks.old ways.old }
    ensures { PicksDone o.now count picks marks.old marks.new ways.new }
{
    let mut spent = measure(o, marks, 0).cost;
    for _ in 0..picks {
        let Some(pick) = next_pick(o, marks, ways, count - spent) else {
            return;
        };
        marks[pick.taxon - 1] = 1;
        ways.hold(pick.taxon);
        spent += pick.quarters;
    }
}
