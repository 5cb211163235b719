// The table of refusals of comparing: the first outline's check, the second's, row 9 for either form.
ghost use Rattle.std.specs.Prelude.{◌≡◌};
ghost use Rattle.refusals.specs.Refusals.{told};
ghost use Rattle.house.specs.Compared.{call, judged};

use outline::check;
use refusals::Refusal;

// The first row that holds. Both rooms are one condition, by `|`, as in outline/src/rules.rt.
pub fn judge(a: &[u8], b: &[u8], form_a: &[u8], form_b: &[u8]) -> Result<(), Refusal>
    ensures { told result ≡ judged (call a.now b.now form_a.now form_b.now) }
{
    check(a)?;
    check(b)?;
    if (form_a.len() < 16 * (a.len() / 16)) | (form_b.len() < 16 * (b.len() / 16)) {
        return Err(Refusal::BufferTooShort);
    }
    Ok(())
}
