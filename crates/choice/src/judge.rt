// The table of refusals, whole: rows 1 to 9 in their order, and row 12; in two parts, so that a crate above can have a row of its own between
// them.
ghost use Rattle.std.specs.Prelude.{◌≡◌, ◌≤◌};
ghost use Rattle.refusals.specs.Refusals.{told};
ghost use Rattle.outline.specs.WellFormed.{WellFormed};
ghost use Rattle.choice.specs.Answer.{call, most_count, work_taken, unknown, too_short, judged};
ghost use Rattle.choice.specs.Inner.{WithinLimits, first_rows, last_rows};

use measures::locked_cost;
use outline::checker::{check_records, check_size};
use refusals::Refusal;

pub const MOST_COUNT: u32 = 4096;

// How many numbers of work an outline takes at a page count.
pub fn work_taken(outline: &[u8], count: u32) -> usize
    requires { WithinLimits outline.now count }
    ensures { result ≡ work_taken outline.now count }
{
    4 * ((outline.len() / 16 + 2) * (count as usize + 1))
}

// A way that is neither 0 nor 1.
pub fn is_unknown(way: u32) -> bool
    ensures { result ≡ unknown way }
{
    way != 0 && way != 1
}

// Marks, curve or work shorter than what the call takes.
#[tactic(auto, unfolding(crate::specs::Answer::too_short))]
fn is_short(outline: &[u8], count: u32, marks: &[u8], curve: &[u32], work: &[u64]) -> bool
    requires { WithinLimits outline.now count }
    ensures { result ≡ too_short (call outline.now count 0 marks.now curve.now work.now) }
{
    marks.len() < outline.len() / 16
        || curve.len() < 2 * (count as usize + 1)
        || work.len() < work_taken(outline, count)
}

// Rows 1 to 8: the way, the outline and the page count. The way stays a number down to the table: C hands it over, row 1 answers any that is
// none, and the definitions count by it; an enum would ask more of who calls `measure` and `fill`, which count any other number as unrooted.
pub fn judge_outline(outline: &[u8], count: u32, way: u32) -> Result<(), Refusal>
    ensures { told result ≡ first_rows outline.now count way }
{
    if is_unknown(way) {
        return Err(Refusal::UnknownWay);
    }
    check_size(outline)?;
    if count > MOST_COUNT {
        return Err(Refusal::CountTooLarge);
    }
    check_records(outline)
}

// Rows 9 and 12: the lent buffers, and whether the locked taxa fit.
pub fn judge_space(
    outline: &[u8],
    count: u32,
    marks: &[u8],
    curve: &[u32],
    work: &[u64],
) -> Result<(), Refusal>
    requires { WellFormed outline.now × (count ≤ most_count) }
    ensures { told result ≡ last_rows outline.now count marks.now curve.now work.now }
{
    if is_short(outline, count, marks, curve, work) {
        return Err(Refusal::BufferTooShort);
    }
    if count < locked_cost(outline) {
        return Err(Refusal::LockedTooDear);
    }
    Ok(())
}

// The first row that holds.
pub fn judge(
    outline: &[u8],
    count: u32,
    way: u32,
    marks: &[u8],
    curve: &[u32],
    work: &[u64],
) -> Result<(), Refusal>
    ensures { told result ≡ judged
        (call outline.now count way marks.now curve.now work.now) }
{
    judge_outline(outline, count, way)?;
    judge_space(outline, count, marks, curve, work)
}
