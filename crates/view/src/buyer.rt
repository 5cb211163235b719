// What a buyer's reader gets: the records with price 0 and without locks.
ghost use Rattle.std.specs.Prelude.{◌≡◌, ◌*◌, ◌≤◌, length};
ghost use Rattle.lists.specs.Lists.{over};
ghost use Rattle.refusals.specs.Refusals.{told};
ghost use Rattle.outline.specs.Outline.{size};
ghost use Rattle.text.specs.Written.{Put};
ghost use Rattle.view.specs.Answer.{call, Answered};
ghost use Rattle.view.specs.Inner.{RecordFits};
ghost use Rattle.view.specs.View.{buyer_record, buyer_view};

use outline::checker::check_with_room;
use outline::fields::{branch_of, first_of, next_of, plate_of};
use records::Record;
use refusals::Refusal;
use text::Pen;

// Puts record r without its price and its lock.
fn put_cleared(o: &[u8], r: usize, pen: &mut Pen<u8>)
    requires { RecordFits o.now r pen.old }
    ensures { Put (buyer_record o.now r) pen.old pen.new }
{
    let record = Record {
        next: next_of(o, r),
        first: first_of(o, r),
        branch: branch_of(o, r),
        price: 0,
        plate: plate_of(o, r),
    };
    record.put(pen);
}

// Writes every record so, one after the other.
fn write_cleared(o: &[u8], view: &mut [u8])
    requires { 16 * size o.now ≤ length view.old }
    ensures { view.new ≡ over (buyer_view o.now) view.old }
{
    let mut pen = Pen {
        buffer: view,
        at: 0,
    };
    for r in 1..=o.len() / 16 {
        put_cleared(o, r, &mut pen);
    }
}

// Refuses by the first row that holds; else writes the cleared records.
pub fn view_buyer(outline: &[u8], view: &mut [u8]) -> Result<(), Refusal>
    ensures { Answered buyer_view (call outline.now view.old) (told result) view.new }
{
    check_with_room(outline, view)?;
    write_cleared(outline, view);
    Ok(())
}
