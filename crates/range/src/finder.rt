// Finding the range: the call is judged, the best diversity at low prices found, and the choice made at high prices.
ghost use Rattle.range.specs.Answer.{call, told, Answered};
ghost use Rattle.range.specs.Inner.{Rangeable, RangeFound};

use super::answer::Figures;
use super::judge::judge;
use choice::judge::work_taken;
use choice::solver::{best_of, solve};
use refusals::Refusal;

// Finds the best diversity at low prices, in work, which is the part that the call takes, and then solves at high prices: in this order, since work
// is to end as a choice at high prices leaves it.
fn find(
    low: &[u8],
    high: &[u8],
    count: u32,
    way: u32,
    marks: &mut [u8],
    curve: &mut [u32],
    work: &mut [u64],
) -> Figures
    requires { Rangeable
        (call low.now high.now count way marks.old curve.old work.old) }
    ensures { RangeFound
        (call low.now high.now count way marks.old curve.old work.old)
        result marks.new curve.new work.new }
{
    let roof = best_of(low, count, way, work);
    let choice = solve(high, count, way, marks, curve, work);
    Figures { choice, roof }
}

// Chooses at high prices, and tells the best diversity at low prices too; or refuses the call.
pub fn range(
    low: &[u8],
    high: &[u8],
    count: u32,
    way: u32,
    marks: &mut [u8],
    curve: &mut [u32],
    work: &mut [u64],
) -> Result<Figures, Refusal>
    ensures { Answered
        (call low.now high.now count way marks.old curve.old work.old)
        (told result) marks.new curve.new work.new }
{
    judge(low, high, count, way, marks, curve, work)?;
    let taken = work_taken(high, count);
    Ok(find(low, high, count, way, marks, curve, &mut work[..taken]))
}
