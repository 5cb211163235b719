// Writing the house form.
ghost use Rattle.std.specs.Prelude.{if◌then◌else◌, ◌≡◌, ◌*◌, ◌-◌, eqb};
ghost use Rattle.lists.specs.Lists.{over, over_at};
ghost use Rattle.refusals.specs.Refusals.{told};
ghost use Rattle.outline.specs.Outline.{branch, price, plate_field, record_bytes};
ghost use Rattle.canonical.specs.House.{house_form};
ghost use Rattle.house.specs.Answer.{call, Answered};
ghost use Rattle.house.specs.Inner.{RecordFits, ChainFits, ChainWritten, FormFits};

use super::chains::Chains;
use outline::checker::check_with_room;
use outline::fields::{branch_of, plate_field_of, price_of};
use records::Record;
use refusals::Refusal;
use text::Pen;

// The link to a chain whose records get the numbers from k on, up to `end`: 0 where there are none, as a record has it.
fn link_to(k: usize, end: usize) -> usize
    ensures { result ≡ (if eqb k end then 0 else k) }
{
    if k == end { 0 } else { k }
}

// Puts record r of the outline as record k, with these links.
#[tactic(auto, using(records::proofs::Records::record_length))]
fn put_at(o: &[u8], r: usize, k: usize, next: usize, first: usize, form: &mut [u8])
    requires { RecordFits o.now r k form.old }
    ensures { form.new ≡ over_at (16 * (k - 1)) (record_bytes next first (branch o.now r) (price o.now r) (plate_field o.now r)) form.old }
{
    let mut pen = Pen {
        buffer: form,
        at: 16 * (k - 1),
    };
    let record = Record {
        next,
        first,
        branch: branch_of(o, r),
        price: price_of(o, r),
        plate: plate_field_of(o, r),
    };
    record.put(&mut pen);
}

// Writes the ordered chain that begins at record r, each record before its members, the first of them as record k; gives the number after
// the last. The number goes along, and no pen: a record is written after its members and the rest of its chain, once both of its links are
// known, and so to a place before what is written already.
fn write_chain(o: &[u8], chains: &Chains, r: usize, k: usize, form: &mut [u8]) -> usize
    requires { ChainFits o.now chains.now r k form.old }
    ensures { ChainWritten o.now chains.now r k form.old form.new result }
{
    if r == 0 {
        return k;
    }
    let below = write_chain(o, chains, chains.firsts[r], k + 1, form);
    let end = write_chain(o, chains, chains.nexts[r], below, form);
    put_at(o, r, k, link_to(below, end), link_to(k + 1, below), form);
    end
}

// Writes the house form of an accepted outline, where there is room for it.
pub fn write_form(o: &[u8], form: &mut [u8])
    requires { FormFits o.now form.old }
    ensures { form.new ≡ over (house_form o.now) form.old }
{
    let chains = Chains::of(o);
    write_chain(o, &chains, 1, 1, form);
}

// Writes the house form of an outline to the first bytes of a form, 16 for each record; or refuses by the first row that holds.
pub fn house_form(outline: &[u8], form: &mut [u8]) -> Result<(), Refusal>
    ensures { Answered (call outline.now form.old) (told result) form.new }
{
    check_with_room(outline, form)?;
    write_form(outline, form);
    Ok(())
}
