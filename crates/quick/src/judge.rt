// The table of refusals: rows 2, 3, 4, 15, 5 to 8, 9, 12.
ghost use Rattle.std.specs.Prelude.{◌≡◌};
ghost use Rattle.refusals.specs.Refusals.{told};
ghost use Rattle.quick.specs.Answer.{call, judged};

use choice::MOST_COUNT;
use measures::locked_cost;
use outline::checker::{check_records, check_size};
use refusals::Refusal;

pub const MOST_PICKS: u32 = 64;

// The first row that holds.
pub fn judge(outline: &[u8], count: u32, picks: u32, marks: &[u8]) -> Result<(), Refusal>
    ensures { told result ≡ judged (call outline.now count picks marks.now) }
{
    check_size(outline)?;
    if MOST_COUNT < count {
        return Err(Refusal::CountTooLarge);
    }
    if MOST_PICKS < picks {
        return Err(Refusal::TooManyPicks);
    }
    check_records(outline)?;
    if marks.len() < outline.len() / 16 {
        return Err(Refusal::BufferTooShort);
    }
    if count < locked_cost(outline) {
        return Err(Refusal::LockedTooDear);
    }
    Ok(())
}
