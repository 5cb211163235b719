// Row 17: two outlines that may differ in prices only, and no low price above its high.
ghost use Rattle.std.specs.Prelude.{◌≡◌};
ghost use Rattle.refusals.specs.Refusals.{told};
ghost use Rattle.outline.specs.Outline.{IsRecord};
ghost use Rattle.range.specs.Answer.{bad_range, price_rows};

use lists::lowest;
use outline::fields::price_of;
use refusals::Refusal;

// Whether a byte of record r outside its price differs, or its low price is above its high. By two parts of the record, before its price and after it:
// that equal fields are equal bytes would need that each byte is below 256.
fn is_bad(low: &[u8], high: &[u8], r: usize) -> bool
    requires { IsRecord low.now r × IsRecord high.now r }
    ensures { result ≡ bad_range low.now high.now r }
{
    let at = 16 * (r - 1);
    let before = low[at..at + 8] != high[at..at + 8];
    let after = low[at + 12..at + 16] != high[at + 12..at + 16];
    (before | after) | (price_of(high, r) < price_of(low, r))
}

// Refuses outlines of which one has more records, with place 0; else the lowest record that is bad.
pub fn judge_prices(low: &[u8], high: &[u8]) -> Result<(), Refusal>
    ensures { told result ≡ price_rows low.now high.now }
{
    let n = low.len() / 16;
    // at no record, so with place 0, as in sheet/src/judge.rt
    if high.len() / 16 != n {
        return Err(Refusal::BadRange(0));
    }
    if let Some(r) = lowest(n, |r| is_bad(low, high, r)) {
        return Err(Refusal::BadRange(r));
    }
    Ok(())
}
