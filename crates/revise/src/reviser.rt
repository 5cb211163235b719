// Revising: the call is judged, the best diversity of the given outline found, and the choice made on the revised one.
ghost use Rattle.revise.specs.Answer.{call, told, Answered};
ghost use Rattle.revise.specs.Inner.{Revisable, Remade};

use super::answer::Figures;
use super::copier::copy_revised;
use super::judge::judge;
use super::movement::movement;
use choice::judge::work_taken;
use choice::solver::{best_of, solve};
use outline::fields::branch_of;
use outline::limits::MOST_RECORDS;
use refusals::Refusal;

// The bytes of the longest outline.
const DRAFT: usize = 16 * MOST_RECORDS;

// Finds the best diversity of the given outline, in work, which is the part that the call takes, and then solves on the revised outline.
fn remake(
    o: &[u8],
    changed: u32,
    to: u32,
    count: u32,
    way: u32,
    marks: &mut [u8],
    curve: &mut [u32],
    work: &mut [u64],
) -> Figures
    requires { Revisable
        (call o.now changed to count way marks.old curve.old work.old) }
    ensures { Remade
        (call o.now changed to count way marks.old curve.old work.old)
        result marks.new curve.new work.new }
{
    let r = changed as usize;
    let mut draft = [0; DRAFT];
    copy_revised(o, r, to, &mut draft);
    let old = best_of(o, count, way, work);
    let choice = solve(&draft[..o.len()], count, way, marks, curve, work);
    Figures {
        choice,
        moved: movement(old, choice.diversity, branch_of(o, r), to),
    }
}

// Chooses on the outline with a new length of one record, and tells how far the best diversity moved beside the length; or refuses the call.
pub fn revise(
    outline: &[u8],
    changed: u32,
    to: u32,
    count: u32,
    way: u32,
    marks: &mut [u8],
    curve: &mut [u32],
    work: &mut [u64],
) -> Result<Figures, Refusal>
    ensures { Answered
        (call outline.now changed to count way marks.old curve.old work.old)
        (told result) marks.new curve.new work.new }
{
    judge(outline, changed, to, count, way, marks, curve, work)?;
    let taken = work_taken(outline, count);
    Ok(remake(
        outline,
        changed,
        to,
        count,
        way,
        marks,
        curve,
        &mut work[..taken],
    ))
}
