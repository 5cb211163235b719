// The table of refusals: row 1, the check's, row 14, row 9.
ghost use Rattle.std.specs.Prelude.{◌≡◌, ◌≤◌, length};
ghost use Rattle.lists.specs.Lists.{lowest as lowest_of, nonzero};
ghost use Rattle.refusals.specs.Refusals.{told};
ghost use Rattle.outline.specs.Outline.{size, records, IsRecord};
ghost use Rattle.sheet.specs.Answer.{call, bad_mark, judged};

use choice::judge::is_unknown;
use lists::lowest;
use measures::marked;
use outline::check;
use outline::fields::is_taxon;
use refusals::Refusal;

// Whether the mark of record r is neither 0 nor 1, or 1 at a group. That each record has a mark is asked here and below: it is a fact of two
// slices, which a type of either could not tell.
fn is_bad(o: &[u8], marks: &[u8], r: usize) -> bool
    requires { IsRecord o.now r × (size o.now ≤ length marks.now) }
    ensures { result ≡ bad_mark o.now marks.now r }
{
    match marks[r - 1] {
        0 => false,
        1 => !is_taxon(o, r),
        _ => true,
    }
}

// The lowest record with such a mark, if there is one.
fn bad_mark_at(o: &[u8], marks: &[u8]) -> Option<usize>
    requires { size o.now ≤ length marks.now }
    ensures { result ≡ nonzero (lowest_of (bad_mark o.now marks.now) (records o.now)) }
{
    lowest(o.len() / 16, |r| is_bad(o, marks, r))
}

// The first row that holds.
pub fn judge(outline: &[u8], way: u32, marks: &[u8], sheet: &[u32]) -> Result<(), Refusal>
    ensures { told result ≡ judged (call outline.now way marks.now sheet.now) }
{
    if is_unknown(way) {
        return Err(Refusal::UnknownWay);
    }
    check(outline)?;
    // at no record, so with place 0: with a variant for it, or with an `Option`, two refusals would be told by the same two numbers
    if marks.len() < outline.len() / 16 {
        return Err(Refusal::BadMarks(0));
    }
    if let Some(r) = bad_mark_at(outline, marks) {
        return Err(Refusal::BadMarks(r));
    }
    if sheet.len() < 3 * (marked(outline, marks) as usize) {
        return Err(Refusal::BufferTooShort);
    }
    Ok(())
}
