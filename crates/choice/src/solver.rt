// Solving a call that no row refuses: the table filled, and read out.
ghost use Rattle.std.specs.Prelude.{◌≡◌};
ghost use Rattle.diversity.specs.Search.{best_diversity};
ghost use Rattle.choice.specs.Answer.{call};
ghost use Rattle.choice.specs.Inner.{Searchable, Solvable, Solved};

use super::answer::Figures;
use super::curve::{spare_of, write_curve};
use super::marks::write_marks;
use measures::{locks_of, marked};
use table::{best_at, fill};

// The best diversity alone, from the table filled in work, whose numbers may then be any.
pub fn best_of(o: &[u8], count: u32, way: u32, work: &mut [u64]) -> u32
    requires { Searchable o.now count work.old }
    ensures { result ≡ best_diversity o.now way count }
{
    let b = count as usize;
    let width = b + 1;
    fill(o, way, width, work);
    best_at(work, width, b).diversity() as u32
}

// Fills the table in work, which is the part that the call takes, writes marks and curve, and clears work.
pub fn solve(
    o: &[u8],
    count: u32,
    way: u32,
    marks: &mut [u8],
    curve: &mut [u32],
    work: &mut [u64],
) -> Figures
    requires { Solvable
        (call o.now count way marks.old curve.old work.old) }
    ensures { Solved
        (call o.now count way marks.old curve.old work.old)
        result marks.new curve.new work.new }
{
    let b = count as usize;
    let width = b + 1;
    fill(o, way, width, work);
    write_curve(work, width, locks_of(o) as u64, curve);
    let best = best_at(work, width, b);
    write_marks(o, best.set, marks);
    work.fill(0);
    Figures {
        diversity: best.diversity() as u32,
        cost: best.cost() as u32,
        taxa: marked(o, marks),
        spare: spare_of(curve, b) as u32,
    }
}
