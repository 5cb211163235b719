// Choosing: the call is judged, and solved in the part of work that it takes.
ghost use Rattle.choice.specs.Answer.{call, told, Answered};

use super::answer::Figures;
use super::judge::{judge, work_taken};
use super::solver::solve;
use refusals::Refusal;

// Chooses the taxa of an outline for a page count, and writes marks and curve; or refuses the call.
pub fn choose(
    outline: &[u8],
    count: u32,
    way: u32,
    marks: &mut [u8],
    curve: &mut [u32],
    work: &mut [u64],
) -> Result<Figures, Refusal>
    ensures { Answered
        (call outline.now count way marks.old curve.old work.old)
        (told result) marks.new curve.new work.new }
{
    judge(outline, count, way, marks, curve, work)?;
    let taken = work_taken(outline, count);
    Ok(solve(outline, count, way, marks, curve, &mut work[..taken]))
}
