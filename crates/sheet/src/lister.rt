// Listing a marked set.
ghost use Rattle.std.specs.Prelude.{◌≡◌};
ghost use Rattle.lists.specs.Lists.{over};
ghost use Rattle.text.specs.Written.{Put};
ghost use Rattle.sheet.specs.Answer.{call, told, Answered};
ghost use Rattle.sheet.specs.Inner.{Listable, row_in, RowFits};
ghost use Rattle.sheet.specs.Sheet.{rows_of};

use super::answer::Figures;
use super::judge::judge;
use super::tables::Additions;
use measures::{is_chosen, measure};
use outline::fields::plate_of;
use refusals::Refusal;
use text::Pen;

// Puts the row of record r, if it is chosen.
fn put_row(o: &[u8], set: &[u8], r: usize, adds: &Additions, pen: &mut Pen<u32>)
    requires { RowFits o.now set.now r adds.now pen.old }
    ensures { Put (row_in o.now set.now adds.now r) pen.old pen.new }
{
    if is_chosen(set, r) {
        pen.put(&[plate_of(o, r), adds.quarters[r - 1], adds.diversity[r - 1]]);
    }
}

// Writes a row for each taxon of a set, in record order.
fn write_rows(o: &[u8], way: u32, set: &[u8], sheet: &mut [u32])
    requires { Listable o.now set.now sheet.old }
    ensures { sheet.new ≡ over (rows_of o.now way set.now) sheet.old }
{
    let adds = Additions::of(o, way, set);
    let mut pen = Pen {
        buffer: sheet,
        at: 0,
    };
    for r in 1..=o.len() / 16 {
        put_row(o, set, r, &adds, &mut pen);
    }
}

// Lists each chosen taxon of a marked set, in record order, with its plate and with the quarters and the diversity that it adds to
// those before it; and answers their number and both sums. Marks past the last record are not looked at.
pub fn sheet(outline: &[u8], way: u32, marks: &[u8], sheet: &mut [u32]) -> Result<Figures, Refusal>
    ensures { Answered
        (call outline.now way marks.now sheet.old)
        (told result) sheet.new }
{
    judge(outline, way, marks, sheet)?;
    let set = &marks[..outline.len() / 16];
    write_rows(outline, way, set, sheet);
    let sum = measure(outline, set, way);
    Ok(Figures {
        rows: sum.taxa,
        quarters: sum.cost,
        diversity: sum.diversity,
    })
}
