// Choosing quickly.
ghost use Rattle.quick.specs.Answer.{call, told, Answered};
ghost use Rattle.quick.specs.Inner.{Fillable, Filled};

use super::answer::Figures;
use super::ceiling::ceiling_of;
use super::judge::judge;
use super::picks::make_picks;
use super::ways::Ways;
use measures::{mark_locked, measure};
use refusals::Refusal;

// Marks the choice, and measures it.
fn fill(o: &[u8], count: u32, picks: u32, marks: &mut [u8]) -> Figures
    requires { Fillable o.now count marks.old }
    ensures { Filled o.now count picks result marks.new }
{
    mark_locked(o, marks);
    let mut ways = Ways::of(o, marks);
    make_picks(o, count, picks, marks, &mut ways);
    let set = measure(o, marks, 0);
    Figures {
        diversity: set.diversity,
        cost: set.cost,
        taxa: set.taxa,
        ceiling: ceiling_of(o, marks, &ways, count, set.diversity),
    }
}

// Marks the locked taxa and at most so many picks: each the taxon of the greatest added diversity, of those that still fit the page count
// with their headings, then of the fewest added quarters, then of the lowest record. Answers with the set's measures and its ceiling; or
// refuses by the first row that holds.
pub fn quick(outline: &[u8], count: u32, picks: u32, marks: &mut [u8]) -> Result<Figures, Refusal>
    ensures { Answered (call outline.now count picks marks.old) (told result) marks.new }
{
    judge(outline, count, picks, marks)?;
    let n = outline.len() / 16;
    Ok(fill(outline, count, picks, &mut marks[..n]))
}
