// Comparing two trees by their house forms.
ghost use Rattle.std.specs.Prelude.{◌≡◌};
ghost use Rattle.std.specs.Cmp.Lexicographic.{slice_cmp};
ghost use Rattle.std.specs.Ordering.{nat_cmp};
ghost use Rattle.house.specs.Compared.{call, told, Answered};

use super::form::write_form;
use super::judge::judge;
use refusals::Refusal;
use std::cmp::Ordering;

// The order of two forms by their bytes: the first on which they differ decides, and a shorter beginning comes first. By itself, so that the
// rule is stated of any bytes.
fn order_of(form_a: &[u8], form_b: &[u8]) -> Ordering
    ensures { result ≡ slice_cmp nat_cmp form_a.now form_b.now }
{
    form_a.cmp(form_b)
}

// Compares two outlines by the bytes of their house forms, which are written to the first bytes of the two forms; or refuses by the first row
// that holds, and then writes neither.
pub fn compare(
    a: &[u8],
    b: &[u8],
    form_a: &mut [u8],
    form_b: &mut [u8],
) -> Result<Ordering, Refusal>
    ensures { Answered (call a.now b.now form_a.old form_b.old) (told result) form_a.new form_b.new }
{
    judge(a, b, form_a, form_b)?;
    write_form(a, form_a);
    write_form(b, form_b);
    Ok(order_of(&form_a[..a.len()], &form_b[..b.len()]))
}
