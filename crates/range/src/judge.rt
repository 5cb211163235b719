// The table of refusals: row 1, the check of both outlines, row 17, then 4, 9 and 12 at high prices.
ghost use Rattle.std.specs.Prelude.{◌≡◌};
ghost use Rattle.refusals.specs.Refusals.{told};
ghost use Rattle.range.specs.Answer.{call, judged};

use super::prices::judge_prices;
use choice::MOST_COUNT;
use choice::judge::{is_unknown, judge_space};
use outline::check;
use refusals::Refusal;

// The first row that holds.
pub fn judge(
    low: &[u8],
    high: &[u8],
    count: u32,
    way: u32,
    marks: &[u8],
    curve: &[u32],
    work: &[u64],
) -> Result<(), Refusal>
    ensures { told result ≡ judged
        (call low.now high.now count way marks.now curve.now work.now) }
{
    if is_unknown(way) {
        return Err(Refusal::UnknownWay);
    }
    check(low)?;
    check(high)?;
    judge_prices(low, high)?;
    if MOST_COUNT < count {
        return Err(Refusal::CountTooLarge);
    }
    judge_space(high, count, marks, curve, work)
}
