// The table of refusals: rows 1 to 8, then 16, then 9 and 12.
ghost use Rattle.std.specs.Prelude.{◌≡◌};
ghost use Rattle.refusals.specs.Refusals.{told};
ghost use Rattle.revise.specs.Answer.{call, bad_revision, judged};

use choice::judge::{judge_outline, judge_space};
use outline::limits::MOST_LENGTH;
use refusals::Refusal;

// A record that the outline does not have, or a length above the longest.
#[tactic(auto, unfolding(crate::specs::Answer::bad_revision))]
fn is_bad(outline: &[u8], changed: u32, to: u32) -> bool
    ensures { result ≡ bad_revision outline.now changed to }
{
    changed == 0 || outline.len() / 16 < changed as usize || MOST_LENGTH < to
}

// The first row that holds. Rows 9 and 12 ask nothing of lengths: the given outline is judged by them for both.
pub fn judge(
    outline: &[u8],
    changed: u32,
    to: u32,
    count: u32,
    way: u32,
    marks: &[u8],
    curve: &[u32],
    work: &[u64],
) -> Result<(), Refusal>
    ensures { told result ≡ judged
        (call outline.now changed to count way marks.now curve.now work.now) }
{
    judge_outline(outline, count, way)?;
    if is_bad(outline, changed, to) {
        return Err(Refusal::BadRevision);
    }
    judge_space(outline, count, marks, curve, work)
}
