// What a house reader gets: the records as they are.
ghost use Rattle.std.specs.Prelude.{◌≡◌, ◌≤◌, length};
ghost use Rattle.lists.specs.Lists.{over};
ghost use Rattle.refusals.specs.Refusals.{told};
ghost use Rattle.view.specs.Answer.{call, Answered};
ghost use Rattle.view.specs.View.{house_view};

use outline::checker::check_with_room;
use refusals::Refusal;

// Writes every byte as it is, one after the other. A loop, and no `copy_from_slice`: that calls `memmove`, and the library asks for nothing but
// `memcpy` and `memset`.
fn write_whole(o: &[u8], view: &mut [u8])
    requires { length o.now ≤ length view.old }
    ensures { view.new ≡ over o.now view.old }
{
    for (i, byte) in view[..o.len()].iter_mut().enumerate() {
        *byte = o[i];
    }
}

// Refuses by the first row that holds; else writes the outline's bytes.
pub fn view_house(outline: &[u8], view: &mut [u8]) -> Result<(), Refusal>
    ensures { Answered house_view (call outline.now view.old) (told result) view.new }
{
    check_with_room(outline, view)?;
    write_whole(outline, view);
    Ok(())
}
